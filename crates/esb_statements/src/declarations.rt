//! Declarations (ECMA-262, 13.3.1, 13.3.2, 14.1, 14.4 to 14.7).

ghost use Rattle.std.specs.Prelude.{◌≡◌, true, false};
ghost use Rattle.esb_reader.specs.Reader.{Gives};
ghost use Rattle.esb_statement_laws.specs.Compounds as compounds;
ghost use Rattle.esb_statement_laws.specs.Declarations as spec;
ghost use Rattle.esb_statements.specs.Lists as lists;
ghost use Rattle.esb_statements.specs.Reads.{ReadsBindings, ReadsClasses, ReadsFunctions};

use crate::parts::Parts;
use crate::readers::StatementReaders;
use esb_base::Text;
use esb_grammar::Context;
use esb_nodes::{Discard, with};
use esb_reader::{Fault, Node, Reading, take};
use esb_statement_tests::{bindings_end, is_lexical, is_var};
use esb_token::{Goal, Kind};
use esb_tree::{Class, Declaration, Expression, Function, Statement};
use std::alloc::Global;

/// Whether a word begins a LexicalDeclaration, or else a VariableStatement.
fn declares(lexical: bool, kind: Kind) -> bool
    ensures { result ≡ lists.declares lexical kind }
{
    if lexical {
        is_lexical(kind)
    } else {
        is_var(kind)
    }
}

impl<
    'a,
    R: StatementReaders,
    E,
    T,
    B: Fn(Global, &Text, Context, usize, usize) -> Reading<Node<Expression>>,
    F: Fn(Global, &Text, usize, usize) -> Reading<Node<Function>>,
    C: Fn(Global, &Text, Context, usize, usize) -> Reading<Node<Class>>,
    I,
    S,
> Parts<'a, R, E, T, B, F, C, I, S> {
    /// FunctionDeclaration, GeneratorDeclaration and their async kinds (14.1, 14.4, 14.5, 14.7).
    #[tactic(auto, unfolding(esb_statement_laws::specs::Compounds::function_declaration))]
    pub(crate) fn function_declaration(
        &self,
        _context: Context,
        at: usize,
    ) -> Reading<Node<Statement>>
        requires functions { ReadsFunctions R.handed self.now.levels (F.pre self.now.function) (F.post self.now.function) }
        ensures { Gives result (compounds.function_declaration self.now.text.now _context self.now.levels (R.handed self.now.text.now self.now.levels) at) }
    {
        let (function, at) = self.function_of(at)?;
        if function.levels >= self.levels {
            function.discard();
            return Err(Fault::NoTree(at));
        }
        let levels = function.levels + 1;
        let tree = Statement::FunctionDeclaration(function.tree);
        Ok((Node { tree, levels }, at))
    }

    /// ClassDeclaration (14.6).
    #[tactic(auto, unfolding(esb_statement_laws::specs::Compounds::class_declaration))]
    pub(crate) fn class_declaration(&self, context: Context, at: usize) -> Reading<Node<Statement>>
        requires classes { ReadsClasses R.handed self.now.levels (C.pre self.now.class) (C.post self.now.class) }
        ensures { Gives result (compounds.class_declaration self.now.text.now context self.now.levels (R.handed self.now.text.now self.now.levels) at) }
    {
        let (class, at) = self.class_of(context, at)?;
        if class.levels >= self.levels {
            class.discard();
            return Err(Fault::NoTree(at));
        }
        let levels = class.levels + 1;
        let tree = Statement::ClassDeclaration(class.tree);
        Ok((Node { tree, levels }, at))
    }

    /// A word of the kind that is asked for, and its bindings.
    #[tactic(auto, unfolding(esb_statement_laws::specs::Declarations::declaration))]
    fn declaration(&self, context: Context, lexical: bool, at: usize) -> Reading<Node<Declaration>>
        requires bindings { ReadsBindings R.handed self.now.levels (B.pre self.now.binding) (B.post self.now.binding) }
        ensures { Gives result (spec.declaration self.now.text.now context self.now.levels (R.handed self.now.text.now self.now.levels) (lists.declares lexical) at) }
    {
        let (word, at) = take(self.text, Goal::Div, at)?;
        if !declares(lexical, word.kind) {
            return Err(Fault::NoTree(word.start));
        }
        let (list, at) = self.bindings(context, at)?;
        let levels = list.levels;
        let bindings = list.tree;
        let tree = Declaration { word, bindings };
        Ok((Node { tree, levels }, at))
    }

    /// LexicalDeclaration (13.3.1), or else VariableStatement (13.3.2).
    #[tactic(auto, unfolding(esb_statement_laws::specs::Declarations::variables))]
    pub(crate) fn variables(
        &self,
        context: Context,
        lexical: bool,
        at: usize,
    ) -> Reading<Node<Statement>>
        requires bindings { ReadsBindings R.handed self.now.levels (B.pre self.now.binding) (B.post self.now.binding) }
        ensures { Gives result (spec.variables self.now.text.now context self.now.levels (R.handed self.now.text.now self.now.levels) (lists.declares lexical) at) }
    {
        let (declaration, at) = self.declaration(context, lexical, at)?;
        let end = bindings_end(self.text, &declaration.tree, at);
        let (declaration, (end, at)) = with(declaration, end)?;
        let deepest = declaration.levels.max(end.levels);
        if deepest >= self.levels {
            declaration.discard();
            return Err(Fault::NoTree(at));
        }
        let levels = deepest + 1;
        let tree = Statement::Variables(declaration.tree, end.tree);
        Ok((Node { tree, levels }, at))
    }
}
