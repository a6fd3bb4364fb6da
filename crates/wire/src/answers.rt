// What calls answer, as it is told.
use crate::question::Mismatch;
use crate::reply::ReplyBytes;
use crate::table::TablesAsked;
use records_spec::{Head, Refusal};

impl ReplyBytes<'_> {
    // What a call that reads or merges answered, and the tables that it was lent.
    pub fn tell_flags(
        &mut self,
        answered: Result<Option<Head>, Refusal>,
        lent: &TablesAsked,
    ) -> Result<(), Mismatch> {
        self.tell_answer(answered)?;
        lent.tell(self)
    }
}
