//! Worked examples of what trees mean and of what the machine does. Each function is a law, which
//! runs nothing: its clauses state the results of pages and streams. No crate depends on these
//! proofs.
#![tactic(auto)]

mod block_trees;
mod expressions;
mod further_guards;
mod guards;
mod include_trees;
mod macro_trees;
mod macros;
mod operators;
mod rows;

pub use block_trees::{
    block_fault_rows, block_value_rows, extends_rows, further_block_call_rows, layout_rows,
    loaded_rows, parent_chain_rows, parent_scope_rows, refused_extends_rows, required_rows,
    restart_rows, state_block_rows, super_rows,
};
pub use expressions::{dropped_value_rows, expression_rows, refused_expression_rows};
pub use further_guards::{escape_guards, inheritance_guards, scope_guards};
pub use guards::{
    block_guards, call_guards, emission_guards, fuel_guards, look_up_guards, loop_guards,
    view_guards,
};
pub use include_trees::{
    choice_rows, from_import_rows, import_rows, include_loop_rows, include_operand_rows,
    include_rows, include_run_rows, include_scope_rows, join_rows, module_closure_rows,
};
pub use macro_trees::{call_tag_rows, enclosed_rows, macro_value_rows, parameter_rows};
pub use macros::{binding_rows, closure_rows, macro_call_rows, macro_part_rows, macro_rows};
pub use operators::{arithmetic_rows, comparison_rows, item_rows, membership_rows, slice_rows};
pub use rows::{
    attribute_rows, block_rows, cache_rows, call_rows, callee_rows, capture_rows, chain_rows,
    condition_rows, conditional_rows, filter_block_rows, filter_rows, formatter_rows,
    function_rows, further_block_rows, further_macro_rows, further_rows, hello_rows,
    loop_condition_rows, loop_rows, method_object_rows, method_rows, operator_rows, recursion_rows,
    scope_rows, spread_keyword_rows, spread_rows, text_rows, two_names_rows,
};
