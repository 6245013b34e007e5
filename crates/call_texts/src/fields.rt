//! The kinds of fields that follow a call's word. A form is a list of them.

/// The kind of a field.
#[derive(Clone, Copy, Debug, PartialEq, Eq)]
pub enum Field {
    /// A number below 2 ^ 64.
    Number,
    /// A notification value, below 2 ^ 32. (GASPI: notifications)
    Value,
    /// Bytes in hex, or `-` for none.
    Bytes,
    /// How many items a list has, and five numbers for each of them.
    Items,
    /// The operation of an allreduce. (GASPI: allreduce)
    Operation,
    /// A type of numbers, how many there are, and these, each in the type's range. (GASPI: allreduce)
    Elements,
}
