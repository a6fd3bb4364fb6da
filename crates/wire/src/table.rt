// TablesAsked: a number of places, then what stands in them. And what else stands together in questions and replies.
ghost use Rattle.std.specs.Prelude.{◌≤◌};

use crate::field::Field;
use crate::question::{Mismatch, QuestionBytes};
use crate::reply::ReplyBytes;
use records_spec::{Head, OwnerId};
use rows_spec::StorageRemovedBytes;

// The most places of a table in a stored question.
pub const TABLE_PLACES: usize = 16;

// A table with room for N places, of which the first are used.
#[derive(Drop)]
pub struct TableOf<T, const N: usize> {
    places: [T; N],
    used: usize,
    ghost fits: { used ≤ N },
}

// A table with as much room as most have.
pub type Table<T> = TableOf<T, TABLE_PLACES>;

impl<T: Field, const N: usize> TableOf<T, N> {
    // Reads a table.
    pub fn read(question: &mut QuestionBytes<'_>) -> Result<Self, Mismatch> {
        let used = usize::read(question)?;
        if N < used {
            return Err(Mismatch::NoQuestion);
        }
        let mut places = [T::ZERO; N];
        for place in places[..used].iter_mut() {
            *place = T::read(question)?;
        }
        Ok(TableOf { places, used })
    }

    // Holds a table against a reply.
    pub fn tell(&self, reply: &mut ReplyBytes<'_>) -> Result<(), Mismatch> {
        self.used.tell(reply)?;
        for place in self.places() {
            place.tell(reply)?;
        }
        Ok(())
    }

    // What stands in the places that are used.
    pub fn places(&self) -> &[T] {
        &self.places[..self.used]
    }

    // The same, to be written.
    pub fn lent(&mut self) -> &mut [T] {
        let used = self.used;
        let places = &mut self.places;
        &mut places[..used]
    }
}

// The two tables of records.
#[derive(Drop)]
pub struct TablesAsked {
    pub epochs: Table<u16>,
    pub counts: Table<u32>,
}

impl TablesAsked {
    // Reads them.
    pub fn read(question: &mut QuestionBytes<'_>) -> Result<Self, Mismatch> {
        Ok(TablesAsked {
            epochs: Table::read(question)?,
            counts: Table::read(question)?,
        })
    }

    // Holds them against a reply.
    pub fn tell(&self, reply: &mut ReplyBytes<'_>) -> Result<(), Mismatch> {
        self.epochs.tell(reply)?;
        self.counts.tell(reply)
    }
}

// FlagsAsked: a head, and the two tables of its records.
#[derive(Drop)]
pub struct FlagsAsked {
    pub head: Head,
    pub epochs: Table<u16>,
    pub counts: Table<u32>,
}

impl FlagsAsked {
    // Reads them.
    pub fn read(question: &mut QuestionBytes<'_>) -> Result<Self, Mismatch> {
        Ok(FlagsAsked {
            head: Head::read(question)?,
            epochs: Table::read(question)?,
            counts: Table::read(question)?,
        })
    }
}

// The three tables of rows: of a removal, whose amounts are bytes in a `u32`, or of totals, whose amounts are a `u64`.
#[derive(Drop)]
pub struct RowTables<T> {
    pub ids: Table<OwnerId>,
    pub epochs: Table<u16>,
    pub amounts: Table<T>,
}

impl<T: Field> RowTables<T> {
    // Reads them.
    pub fn read(question: &mut QuestionBytes<'_>) -> Result<Self, Mismatch> {
        Ok(RowTables {
            ids: Table::read(question)?,
            epochs: Table::read(question)?,
            amounts: Table::read(question)?,
        })
    }

    // Holds them against a reply.
    pub fn tell(&self, reply: &mut ReplyBytes<'_>) -> Result<(), Mismatch> {
        self.ids.tell(reply)?;
        self.epochs.tell(reply)?;
        self.amounts.tell(reply)
    }
}

// A removal, and the three tables of its rows.
#[derive(Drop)]
pub struct Rows {
    pub removal: StorageRemovedBytes,
    pub tables: RowTables<u32>,
}

impl Rows {
    // Reads them.
    pub fn read(question: &mut QuestionBytes<'_>) -> Result<Self, Mismatch> {
        Ok(Rows {
            removal: StorageRemovedBytes::read(question)?,
            tables: RowTables::read(question)?,
        })
    }
}
