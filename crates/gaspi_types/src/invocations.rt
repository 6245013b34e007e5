//! A call as it is made: its caller, the call, and its row.

ghost use Rattle.std.specs.Prelude.{◌≡◌, ◌≤◌};
ghost use Rattle.gaspi_types.specs.CallRows.{row_of, entries_in};

use crate::call_rows::CallRow;
use crate::calls::Call;
use crate::shapes::CallerId;

/// A call that a caller makes, with the call's row. The row is made once, and handed on with the call. (own choice)
#[derive(Debug, Drop)]
pub struct Invocation<'a> {
    pub caller: CallerId,
    pub call: &'a Call,
    pub row: CallRow,
    ghost rowed: { row ≡ row_of call.now },
    ghost bounded: { entries_in row.posting ≤ 257 },
}

impl Invocation<'_> {
    /// The call of a caller, with its row.
    pub fn new(caller: CallerId, call: &Call) -> Invocation<'_>
        ensures caller { result.caller ≡ caller }
        ensures call { result.call.now ≡ call.now }
    {
        Invocation {
            caller,
            call,
            row: call.row(),
        }
    }
}
