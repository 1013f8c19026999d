//! ImportDeclaration (ECMA-262, 15.2.2), and the exports that only name (15.2.3).

ghost use Rattle.std.specs.Prelude.{◌≡◌, true, false};
ghost use Rattle.esb_module_laws.specs.Items as spec;
ghost use Rattle.esb_reader.specs.Reader.{Gives};

use crate::clauses::{from_clause, import_clause, maybe_from};
use crate::endings::names_end;
use crate::parts::ItemParts;
use crate::readers::ItemReaders;
use crate::specifiers::{maybe_renaming, specifiers};
use esb_reader::{Fault, Node, Reading, expect};
use esb_statement_tests::word_end;
use esb_token::{Kind, Token};
use esb_tree::{ModuleItem, Specifiers};

fn make_all(
    word: Token,
    star: Token,
    renamed: Option<(Token, Token)>,
    from: (Token, Token),
    semicolon: Option<Token>,
) -> ModuleItem
    ensures { result ≡ spec.make_all_as word star renamed from semicolon }
{
    match renamed {
        Some((as_word, name)) => {
            ModuleItem::ExportAllAs(word, star, as_word, name, from.0, from.1, semicolon)
        }
        None => ModuleItem::ExportAll(word, star, from.0, from.1, semicolon),
    }
}

fn make_names(
    word: Token,
    list: Specifiers,
    from: Option<(Token, Token)>,
    semicolon: Option<Token>,
) -> ModuleItem
    ensures { result ≡ spec.make_names_from word list from semicolon }
{
    match from {
        Some((from_word, source)) => {
            ModuleItem::ExportFrom(word, list, from_word, source, semicolon)
        }
        None => ModuleItem::ExportNames(word, list, semicolon),
    }
}

impl<'a, R: ItemReaders, S, V, F, C> ItemParts<'a, R, S, V, F, C> {
    /// `import` of a module alone.
    #[tactic(auto, unfolding(esb_module_laws::specs::Items::import_module))]
    pub(crate) fn import_module(&self, at: usize) -> Reading<Node<ModuleItem>>
        ensures { Gives result (spec.import_module self.now.text.now self.now.levels (R.handed self.now.text.now self.now.levels) at) }
    {
        let (word, at) = expect(self.text, Kind::Import, at)?;
        let (source, at) = expect(self.text, Kind::Text, at)?;
        let (end, at) = word_end(self.text, at)?;
        if end.levels >= self.levels {
            return Err(Fault::NoTree(at));
        }
        let levels = end.levels + 1;
        let tree = ModuleItem::ImportModule(word, source, end.tree);
        Ok((Node { tree, levels }, at))
    }

    /// `import` of bindings.
    #[tactic(auto, unfolding(esb_module_laws::specs::Items::import_from))]
    pub(crate) fn import_from(&self, at: usize) -> Reading<Node<ModuleItem>>
        ensures { Gives result (spec.import_from self.now.text.now self.now.levels (R.handed self.now.text.now self.now.levels) at) }
    {
        let (word, at) = expect(self.text, Kind::Import, at)?;
        let (clause, at) = import_clause(self.alloc, self.text, at)?;
        let (from, at) = from_clause(self.text, at)?;
        let (end, at) = word_end(self.text, at)?;
        let deepest = clause.levels.max(from.levels).max(end.levels);
        if deepest >= self.levels {
            return Err(Fault::NoTree(at));
        }
        let levels = deepest + 1;
        let (from, source) = from.tree;
        let tree = ModuleItem::Import(word, clause.tree, from, source, end.tree);
        Ok((Node { tree, levels }, at))
    }

    /// `export` `*`.
    #[tactic(auto, unfolding(esb_module_laws::specs::Items::export_all, crate::specs::Parts::maybe_renaming))]
    pub(crate) fn export_all(&self, at: usize) -> Reading<Node<ModuleItem>>
        ensures { Gives result (spec.export_all self.now.text.now self.now.levels (R.handed self.now.text.now self.now.levels) at) }
    {
        let (word, at) = expect(self.text, Kind::Export, at)?;
        let (star, at) = expect(self.text, Kind::Star, at)?;
        let (renamed, at) = maybe_renaming(self.text, at)?;
        let (from, at) = from_clause(self.text, at)?;
        let (end, at) = word_end(self.text, at)?;
        let deepest = renamed.levels.max(from.levels).max(end.levels);
        if deepest >= self.levels {
            return Err(Fault::NoTree(at));
        }
        let levels = deepest + 1;
        let tree = make_all(word, star, renamed.tree, from.tree, end.tree);
        Ok((Node { tree, levels }, at))
    }

    /// `export` of names.
    #[tactic(auto, unfolding(esb_module_laws::specs::Items::export_names, crate::specs::Parts::maybe_from))]
    pub(crate) fn export_names(&self, at: usize) -> Reading<Node<ModuleItem>>
        ensures { Gives result (spec.export_names self.now.text.now self.now.levels (R.handed self.now.text.now self.now.levels) at) }
    {
        let (word, at) = expect(self.text, Kind::Export, at)?;
        let (list, at) = specifiers(self.alloc, self.text, false, at)?;
        let (from, at) = maybe_from(self.text, at)?;
        let (end, at) = names_end(self.text, from.tree, at)?;
        let deepest = list.levels.max(from.levels).max(end.levels);
        if deepest >= self.levels {
            return Err(Fault::NoTree(at));
        }
        let levels = deepest + 1;
        let tree = make_names(word, list.tree, from.tree, end.tree);
        Ok((Node { tree, levels }, at))
    }
}
