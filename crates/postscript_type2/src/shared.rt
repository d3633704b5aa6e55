//! Items shared with crates that run charstrings of other tables, such as `CFF2`.

pub use crate::program::Phase;
pub use crate::program::callers::Callers;
pub use crate::program::hints::stems_after;
pub use crate::program::routine::{Routine, begins_number, make_room};
pub use crate::program::short::is_alone;
pub use crate::program::stack::whole_operand;
pub use crate::refused::{Refused, Result};
