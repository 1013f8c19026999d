//! The early rules that are tests of one node (ECMA-262, 11th edition, the sections named Static Semantics: Early Errors): what a
//! test has to know of the places round a node and of the nodes in it, and which breach it finds.
#![tactic(auto)]

mod breach;
mod checks;
mod found;
mod label;
mod labels;
mod roles;
mod setting;
mod shapes;

pub use breach::{Breach, Rule};
pub use checks::{
    check_accessor, check_assignment, check_bound, check_constructor, check_declared, check_delete,
    check_initialized, check_literal, check_member, check_meta, check_method_property,
    check_operator, check_parenthesized, check_primary, check_reference, check_return,
    check_second_constructor, check_second_proto, check_shorthand, check_spread, check_super,
    check_value, is_same,
};
pub use found::{Found, begin, enter, finish, leave, put_back, refuse, report_if, set_aside};
pub use label::Label;
pub use labels::{check_break, check_continue, check_label};
pub use roles::{
    ListRole, Place, Role, array_role, assigned_role, element_role, is_prototype_method,
    object_role, parenthesized_role, placed, spread_role,
};
pub use setting::{
    Setting, of_body, of_function, of_function_parameters, of_loop, of_method_parameters,
    of_module, of_named_method, of_parameters, of_switch,
};
pub use shapes::{
    BracketedShape, ElementShape, ElementsShape, ExpressionShape, LinkShape, LinksShape,
    PropertyNameShape, access_link, after_link, bracketed_shape, call_link, computed_shape,
    elements_shape, hole_shape, key_of_prototype, member_shape, named_shape, no_links,
    optional_link, other_element, other_shape, parenthesized_shape, primary_shape,
    property_element, start_of_function, template_link, value_shape,
};
