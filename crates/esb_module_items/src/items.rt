//! Module items of all sorts, and lists of them (ECMA-262, 15.2).

ghost use Rattle.std.specs.Prelude.{◌≡◌, true, false};
ghost use Rattle.esb_module_items.specs.Parts.{GivesTree};
ghost use Rattle.esb_module_items.specs.Reads.{ReadsClasses, ReadsFunctions, ReadsStatements, ReadsValues};
ghost use Rattle.esb_module_laws.specs.Items as spec;
ghost use Rattle.esb_module_laws.specs.Module as whole;
ghost use Rattle.esb_module_laws.specs.Module.{tree_of};
ghost use Rattle.esb_reader.specs.Parts.{made};
ghost use Rattle.esb_reader.specs.Reader.{Gives};
ghost use Rattle.esb_tree.specs.declared.modules.ModuleItem.TheVariants as m;

use crate::parts::ItemParts;
use crate::readers::ItemReaders;
use crate::sorts::item_sort_at;
use esb_base::{List, Text};
use esb_module_laws::ItemSort;
use esb_nodes::{Listed, with};
use esb_reader::{Fault, Node, Reading, expect, peek};
use esb_statement_tests::begins_item;
use esb_token::{Goal, Kind};
use esb_tree::{Class, Expression, Function, ModuleItem, Statement, Tree};
use std::alloc::Global;

impl<
    'a,
    R: ItemReaders,
    S: Fn(Global, &Text, usize, usize) -> Reading<Node<Statement>>,
    V,
    F,
    C,
> ItemParts<'a, R, S, V, F, C> {
    /// A statement or a declaration.
    fn statement_item(&self, at: usize) -> Reading<Node<ModuleItem>>
        requires statements { ReadsStatements R.handed self.now.levels (S.pre self.now.statement) (S.post self.now.statement) }
        ensures { Gives result (made m.Item 0 (R.handed self.now.text.now self.now.levels).statement at) }
    {
        let (x, at) = self.statement_of(at)?;
        let levels = x.levels;
        let tree = ModuleItem::Item(x.tree);
        Ok((Node { tree, levels }, at))
    }
}

impl<
    'a,
    R: ItemReaders,
    S: Fn(Global, &Text, usize, usize) -> Reading<Node<Statement>>,
    V: Fn(Global, &Text, usize, usize) -> Reading<Node<Expression>>,
    F: Fn(Global, &Text, usize, usize) -> Reading<Node<Function>>,
    C: Fn(Global, &Text, usize, usize) -> Reading<Node<Class>>,
> ItemParts<'a, R, S, V, F, C> {
    /// ModuleItem.
    #[tactic(auto, unfolding(esb_module_laws::specs::Items::module_item))]
    pub fn module_item(&self, at: usize) -> Reading<Node<ModuleItem>>
        requires statements { ReadsStatements R.handed self.now.levels (S.pre self.now.statement) (S.post self.now.statement) }
        requires values { ReadsValues R.handed self.now.levels (V.pre self.now.value) (V.post self.now.value) }
        requires functions { ReadsFunctions R.handed self.now.levels (F.pre self.now.function) (F.post self.now.function) }
        requires classes { ReadsClasses R.handed self.now.levels (C.pre self.now.class) (C.post self.now.class) }
        ensures { Gives result (spec.module_item self.now.text.now self.now.levels (R.handed self.now.text.now self.now.levels) at) }
    {
        match item_sort_at(self.text, at) {
            ItemSort::Statement => self.statement_item(at),
            ItemSort::ImportModule => self.import_module(at),
            ItemSort::Import => self.import_from(at),
            ItemSort::ExportAll => self.export_all(at),
            ItemSort::ExportNames => self.export_names(at),
            ItemSort::ExportDeclaration => self.export_declaration(at),
            ItemSort::DefaultFunction => self.default_function(at),
            ItemSort::DefaultClass => self.default_class(at),
            ItemSort::DefaultValue => self.default_value(at),
        }
    }

    /// ModuleItemList.
    #[tactic(auto, unfolding(esb_module_laws::specs::Items::item_list, esb_reader::specs::Reader::repeated))]
    fn item_list(&self, start: usize) -> Reading<Node<List<ModuleItem>>>
        requires statements { ReadsStatements R.handed self.now.levels (S.pre self.now.statement) (S.post self.now.statement) }
        requires values { ReadsValues R.handed self.now.levels (V.pre self.now.value) (V.post self.now.value) }
        requires functions { ReadsFunctions R.handed self.now.levels (F.pre self.now.function) (F.post self.now.function) }
        requires classes { ReadsClasses R.handed self.now.levels (C.pre self.now.class) (C.post self.now.class) }
        ensures { Gives result (spec.item_list self.now.text.now self.now.levels (R.handed self.now.text.now self.now.levels) start) }
    {
        let mut at = start;
        let mut tree = List::new(self.alloc);
        let mut deepest = 0;
        for _turn in 0..self.text.as_bytes().len() {
            if !begins_item(peek(self.text, Goal::Div, at).kind) {
                return Ok((
                    Node {
                        tree,
                        levels: deepest,
                    },
                    at,
                ));
            }
            let (before, (next, end)) = with(tree, self.module_item(at))?;
            tree = next.tree.added_to(before)?;
            deepest = deepest.max(next.levels);
            at = end;
        }
        Ok((
            Node {
                tree,
                levels: deepest,
            },
            at,
        ))
    }

    /// Items up to the end of the text.
    #[tactic(auto, unfolding(esb_module_laws::specs::Module::items_to_end))]
    fn items_to_end(&self, at: usize) -> Reading<Node<List<ModuleItem>>>
        requires statements { ReadsStatements R.handed self.now.levels (S.pre self.now.statement) (S.post self.now.statement) }
        requires values { ReadsValues R.handed self.now.levels (V.pre self.now.value) (V.post self.now.value) }
        requires functions { ReadsFunctions R.handed self.now.levels (F.pre self.now.function) (F.post self.now.function) }
        requires classes { ReadsClasses R.handed self.now.levels (C.pre self.now.class) (C.post self.now.class) }
        ensures { Gives result (whole.items_to_end self.now.text.now self.now.levels (R.handed self.now.text.now self.now.levels) at) }
    {
        let (items, at) = self.item_list(at)?;
        let (items, (_, at)) = with(items, expect(self.text, Kind::End, at))?;
        Ok((items, at))
    }

    /// Module.
    pub fn module(&self) -> Result<Tree, Fault>
        requires statements { ReadsStatements R.handed self.now.levels (S.pre self.now.statement) (S.post self.now.statement) }
        requires values { ReadsValues R.handed self.now.levels (V.pre self.now.value) (V.post self.now.value) }
        requires functions { ReadsFunctions R.handed self.now.levels (F.pre self.now.function) (F.post self.now.function) }
        requires classes { ReadsClasses R.handed self.now.levels (C.pre self.now.class) (C.post self.now.class) }
        ensures { GivesTree result (tree_of (whole.items_to_end self.now.text.now self.now.levels (R.handed self.now.text.now self.now.levels) 0)) }
    {
        let (items, _) = self.items_to_end(0)?;
        Ok(Tree { items: items.tree })
    }
}
