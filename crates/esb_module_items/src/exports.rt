//! Exports of declarations and of defaults (ECMA-262, 15.2.3).

ghost use Rattle.std.specs.Prelude.{◌≡◌, true, false};
ghost use Rattle.esb_module_items.specs.Reads.{ReadsClasses, ReadsFunctions, ReadsStatements, ReadsValues};
ghost use Rattle.esb_module_laws.specs.Items as spec;
ghost use Rattle.esb_reader.specs.Parts.{above};
ghost use Rattle.esb_reader.specs.Reader.{Gives};
ghost use Rattle.esb_tree.specs.declared.statements.Statement.TheVariants as s;

use crate::kinds::is_declaration;
use crate::parts::ItemParts;
use crate::readers::ItemReaders;
use esb_base::Text;
use esb_nodes::{Discard, with};
use esb_reader::{Fault, Node, Reading, expect};
use esb_statement_tests::expression_end;
use esb_token::Kind;
use esb_tree::{Class, Expression, Function, ModuleItem, Statement};
use std::alloc::Global;

impl<
    'a,
    R: ItemReaders,
    S: Fn(Global, &Text, usize, usize) -> Reading<Node<Statement>>,
    V,
    F,
    C,
> ItemParts<'a, R, S, V, F, C> {
    /// `export` of a VariableStatement or a Declaration.
    #[tactic(auto, unfolding(esb_module_laws::specs::Items::export_declaration))]
    pub(crate) fn export_declaration(&self, at: usize) -> Reading<Node<ModuleItem>>
        requires statements { ReadsStatements R.handed self.now.levels (S.pre self.now.statement) (S.post self.now.statement) }
        ensures { Gives result (spec.export_declaration self.now.text.now self.now.levels (R.handed self.now.text.now self.now.levels) at) }
    {
        let (word, at) = expect(self.text, Kind::Export, at)?;
        let (x, at) = self.statement_of(at)?;
        if !is_declaration(&x.tree) {
            x.discard();
            return Err(Fault::NoTree(at));
        }
        if x.levels >= self.levels {
            x.discard();
            return Err(Fault::NoTree(at));
        }
        let levels = x.levels + 1;
        let tree = ModuleItem::ExportDeclaration(word, x.tree);
        Ok((Node { tree, levels }, at))
    }
}

impl<
    'a,
    R: ItemReaders,
    S,
    V,
    F: Fn(Global, &Text, usize, usize) -> Reading<Node<Function>>,
    C,
> ItemParts<'a, R, S, V, F, C> {
    fn function_declaration(&self, at: usize) -> Reading<Node<Statement>>
        requires functions { ReadsFunctions R.handed self.now.levels (F.pre self.now.function) (F.post self.now.function) }
        ensures { Gives result (above self.now.levels s.FunctionDeclaration (R.handed self.now.text.now self.now.levels).function at) }
    {
        let (function, at) = self.function_of(at)?;
        if function.levels >= self.levels {
            function.discard();
            return Err(Fault::NoTree(at));
        }
        let levels = function.levels + 1;
        let tree = Statement::FunctionDeclaration(function.tree);
        Ok((Node { tree, levels }, at))
    }
}

impl<
    'a,
    R: ItemReaders,
    S,
    V,
    F,
    C: Fn(Global, &Text, usize, usize) -> Reading<Node<Class>>,
> ItemParts<'a, R, S, V, F, C> {
    fn class_declaration(&self, at: usize) -> Reading<Node<Statement>>
        requires classes { ReadsClasses R.handed self.now.levels (C.pre self.now.class) (C.post self.now.class) }
        ensures { Gives result (above self.now.levels s.ClassDeclaration (R.handed self.now.text.now self.now.levels).class at) }
    {
        let (class, at) = self.class_of(at)?;
        if class.levels >= self.levels {
            class.discard();
            return Err(Fault::NoTree(at));
        }
        let levels = class.levels + 1;
        let tree = Statement::ClassDeclaration(class.tree);
        Ok((Node { tree, levels }, at))
    }
}

impl<
    'a,
    R: ItemReaders,
    S,
    V,
    F: Fn(Global, &Text, usize, usize) -> Reading<Node<Function>>,
    C,
> ItemParts<'a, R, S, V, F, C> {
    /// `export` `default` of a function, a generator, or one of their async kinds.
    #[tactic(auto, unfolding(esb_module_laws::specs::Items::default_function))]
    pub(crate) fn default_function(&self, at: usize) -> Reading<Node<ModuleItem>>
        requires functions { ReadsFunctions R.handed self.now.levels (F.pre self.now.function) (F.post self.now.function) }
        ensures { Gives result (spec.default_function self.now.text.now self.now.levels (R.handed self.now.text.now self.now.levels) at) }
    {
        let (word, at) = expect(self.text, Kind::Export, at)?;
        let (default, at) = expect(self.text, Kind::Default, at)?;
        let (x, at) = self.function_declaration(at)?;
        if x.levels >= self.levels {
            x.discard();
            return Err(Fault::NoTree(at));
        }
        let levels = x.levels + 1;
        let tree = ModuleItem::ExportDefaultDeclaration(word, default, x.tree);
        Ok((Node { tree, levels }, at))
    }
}

impl<
    'a,
    R: ItemReaders,
    S,
    V,
    F,
    C: Fn(Global, &Text, usize, usize) -> Reading<Node<Class>>,
> ItemParts<'a, R, S, V, F, C> {
    /// `export` `default` of a class.
    #[tactic(auto, unfolding(esb_module_laws::specs::Items::default_class))]
    pub(crate) fn default_class(&self, at: usize) -> Reading<Node<ModuleItem>>
        requires classes { ReadsClasses R.handed self.now.levels (C.pre self.now.class) (C.post self.now.class) }
        ensures { Gives result (spec.default_class self.now.text.now self.now.levels (R.handed self.now.text.now self.now.levels) at) }
    {
        let (word, at) = expect(self.text, Kind::Export, at)?;
        let (default, at) = expect(self.text, Kind::Default, at)?;
        let (x, at) = self.class_declaration(at)?;
        if x.levels >= self.levels {
            x.discard();
            return Err(Fault::NoTree(at));
        }
        let levels = x.levels + 1;
        let tree = ModuleItem::ExportDefaultDeclaration(word, default, x.tree);
        Ok((Node { tree, levels }, at))
    }
}

impl<
    'a,
    R: ItemReaders,
    S,
    V: Fn(Global, &Text, usize, usize) -> Reading<Node<Expression>>,
    F,
    C,
> ItemParts<'a, R, S, V, F, C> {
    /// `export` `default` of an AssignmentExpression.
    #[tactic(auto, unfolding(esb_module_laws::specs::Items::default_value))]
    pub(crate) fn default_value(&self, at: usize) -> Reading<Node<ModuleItem>>
        requires values { ReadsValues R.handed self.now.levels (V.pre self.now.value) (V.post self.now.value) }
        ensures { Gives result (spec.default_value self.now.text.now self.now.levels (R.handed self.now.text.now self.now.levels) at) }
    {
        let (word, at) = expect(self.text, Kind::Export, at)?;
        let (default, at) = expect(self.text, Kind::Default, at)?;
        let (x, at) = self.value_of(at)?;
        let end = expression_end(self.text, &x.tree, at);
        let (x, (end, at)) = with(x, end)?;
        let deepest = x.levels.max(end.levels);
        if deepest >= self.levels {
            x.discard();
            return Err(Fault::NoTree(at));
        }
        let levels = deepest + 1;
        let tree = ModuleItem::ExportDefault(word, default, x.tree, end.tree);
        Ok((Node { tree, levels }, at))
    }
}
