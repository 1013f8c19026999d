/// What a token is read as where the grammar has a choice: whether a `/` begins a division or a regular expression, and
/// whether a `}` goes on with a template (the goal symbols of ECMA-262, clause 11).
#[derive(Clone, Copy, Debug, PartialEq, Eq)]
pub enum Goal {
    Div,
    RegExp,
    TemplateTail,
}
