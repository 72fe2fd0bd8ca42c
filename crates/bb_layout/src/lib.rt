//! From the state node of a devicetree to the layout of its variables and copies (barebox User
//! Manual, State Framework). States and choosers stand on it; it knows no text format and makes no
//! device call.
#![tactic(auto)]

mod backend;
mod convert;
mod defaults;
mod fields;
mod format_kind;
mod from_tree;
mod layout;
mod layout_error;
mod placing;
mod ranges;
mod record_len;
mod record_nodes;
mod record_tree;
mod record_value;
mod state_node;
mod state_props;
mod storage;
mod thirds;
mod var;
mod var_list;
mod var_type;
mod variable;
mod variables;

pub use format_kind::FormatKind;
pub use from_tree::layout_of;
pub use layout::Layout;
pub use layout_error::LayoutError;
pub use record_nodes::shared_len;
pub use storage::Storage;
pub use thirds::raw_layout;
pub use var::Var;
pub use var_list::VarList;
