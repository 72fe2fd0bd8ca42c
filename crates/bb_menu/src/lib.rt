//! Boot menus: the entries of a folder in their one order, that of the Boot Loader Specification.
//! What chooses and starts targets may know it; it knows neither devices nor states.
#![tactic(auto)]

mod fault;
mod item;
mod law;
mod menu;
mod order;
mod read;
mod token;
mod version;

pub use fault::MenuFault;
pub use item::MenuItem;
pub use law::law_menu_order;
pub use menu::Menu;
pub use order::before;
pub use read::{read_menu, read_menu_text};
