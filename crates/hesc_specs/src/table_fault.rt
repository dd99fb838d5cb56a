//! The faults by which rows make no table.
/// Why rows make no table of entities: the first fault of a list of rows. Rows are counted from 0.
#[derive(Clone, Copy, Debug, PartialEq, Eq)]
pub enum TableFault {
    /// The name of this row is empty.
    EmptyName(usize),
    /// The name of this row holds a byte that is no ASCII letter or digit.
    BadName(usize),
    /// The name of this row is not greater, by bytes, than that of the row before it.
    NotAscending(usize),
    /// The name of this row is a common one, and its value is not the common one.
    WrongCommon(usize),
    /// No row has the common name at this place of `amp`, `apos`, `gt`, `lt`, `nbsp`, `quot`.
    MissingCommon(usize),
}
