//! Texts of lines: lines, their fields, and the numbers, hexadecimal digits and names in them.
#![tactic(auto)]

mod ends;
mod fields;
mod kinds;
mod line;
mod lines;
mod list;
mod values;
mod writing;

pub use crate::ends::write_file_end;
pub use crate::fields::{
    field, first_field, five_fields, four_fields, last_field, three_fields, two_fields,
};
pub use crate::kinds::{LineFault, Name, PlanFault, PlanKind};
pub use crate::line::Line;
pub use crate::lines::{LineReader, read_lines};
pub use crate::list::{ListLine, read_list};
pub use crate::values::{
    folder_name_of, hex32, hex64, name_of, number_in, number64, page_salt, part_of,
};
pub use crate::writing::{put_hex, put_number, put_salt};
