//! Buffers that take rows.
ghost use Rattle.std.specs.Prelude.{◌≡◌, ℕ, List, [], ◌+◌, ◌≤◌, length, map, take, string_bytes, IfSome, OnOk, OnErr, vec_len};
ghost use Rattle.minus_text.specs.Buffers.{GrowsByText, PutsText};

use crate::screen::Rows;
use std::alloc::{AllocError, Global};
use std::fmt;
use std::marker::Model;

/// What takes rows at its end, in order.
pub trait AppendableBuffer {
    // The rows in it.
    ghost rows: { Self → List (List ℕ) };

    /// Puts what a row prints at the end. An `Err` changes no row.
    fn push_fmt<D: fmt::Display>(&mut self, alloc: Global, row: &D) -> Result<(), AllocError>
        ensures ok { OnOk result (GrowsByText (rows self.old) (rows self.new) (D.output row.now)) }
        ensures err { OnErr result (rows self.new ≡ rows self.old) };

    /// How many rows are in it.
    fn rows_len(&self) -> usize
        ensures { result ≡ length (rows self.now) };

    /// Takes out all rows behind the first few.
    fn truncate_rows(&mut self, len: usize)
        ensures { rows self.new ≡ take len (rows self.old) };
}

impl AppendableBuffer for Rows {
    ghost rows = { λ rows. map string_bytes rows.items };

    fn push_fmt<D: fmt::Display>(&mut self, alloc: Global, row: &D) -> Result<(), AllocError> {
        self.push(row.to_string(alloc)?)?;
        Ok(())
    }

    fn rows_len(&self) -> usize {
        self.len()
    }

    fn truncate_rows(&mut self, len: usize) {
        self.truncate(len);
    }
}

impl<B: AppendableBuffer> AppendableBuffer for &mut B {
    ghost rows = { λ buffer. B.rows buffer.now };

    fn push_fmt<D: fmt::Display>(&mut self, alloc: Global, row: &D) -> Result<(), AllocError> {
        (**self).push_fmt(alloc, row)
    }

    fn rows_len(&self) -> usize {
        (**self).rows_len()
    }

    fn truncate_rows(&mut self, len: usize) {
        (**self).truncate_rows(len);
    }
}

/// Rows that are written over one after another: they are put into the memory of the rows that were
/// there. Seen as those put into it since it was made.
#[derive(Drop)]
pub struct ReusableRows {
    rows: Rows,
    used: usize,
}

impl Model for ReusableRows {
    ghost use Rattle.std.specs.Prelude.{ℕ, List, ◌≤◌, map, take, string_bytes, vec_len};

    ghost Value = { List (List ℕ) };

    ghost view = { λ r. take r.used (map string_bytes r.rows.items) };

    ghost invariant = { λ r. r.used ≤ vec_len r.rows };
}

// Writes what a row prints in the place of a text. An `Err` may leave any text.
fn write_over<D: fmt::Display>(text: &mut String, row: &D) -> Result<(), AllocError>
    ensures { OnOk result (IfSome (D.output row.now) (λ bytes. string_bytes text.new ≡ bytes)) }
{
    text.clear();
    write!(text, "{row}")?;
    Ok(())
}

// Writes what a row prints in the place of one that is there.
fn put_over<D: fmt::Display>(rows: &mut Rows, at: usize, row: &D) -> Result<(), AllocError>
    requires { at + 1 ≤ vec_len rows.old }
    ensures ok { OnOk result (PutsText at (map string_bytes rows.old.items) (map string_bytes rows.new.items)
        (D.output row.now)) }
    ensures front { take at (map string_bytes rows.new.items) ≡ take at (map string_bytes rows.old.items) }
    ensures len { vec_len rows.new ≡ vec_len rows.old }
{
    write_over(&mut rows[at], row)?;
    Ok(())
}

// Writes what a row prints at a place: over the one that is there, or behind the last.
fn put_at<D: fmt::Display>(
    alloc: Global,
    rows: &mut Rows,
    at: usize,
    row: &D,
) -> Result<(), AllocError>
    requires { at ≤ vec_len rows.old }
    ensures ok { OnOk result (PutsText at (map string_bytes rows.old.items) (map string_bytes rows.new.items)
        (D.output row.now)) }
    ensures front { take at (map string_bytes rows.new.items) ≡ take at (map string_bytes rows.old.items) }
    ensures len { at ≤ vec_len rows.new }
    ensures more { OnOk result (at + 1 ≤ vec_len rows.new) }
{
    if at == rows.len() {
        rows.push(row.to_string(alloc)?)?;
        return Ok(());
    }
    put_over(rows, at, row)?;
    Ok(())
}

impl ReusableRows {
    /// None so far; those that are put into it take the memory of these rows.
    pub fn new(rows: Rows) -> Self
        ensures { result ≡ [] }
    {
        ReusableRows { rows, used: 0 }
    }

    /// The rows put into it.
    pub fn finish(self) -> Rows
        ensures { map string_bytes result.items ≡ self }
    {
        let ReusableRows { mut rows, used } = self;
        rows.truncate(used);
        rows
    }
}

impl AppendableBuffer for ReusableRows {
    ghost rows = { λ rows. rows };

    fn push_fmt<D: fmt::Display>(&mut self, alloc: Global, row: &D) -> Result<(), AllocError> {
        put_at(alloc, &mut self.rows, self.used, row)?;
        self.used += 1;
        Ok(())
    }

    fn rows_len(&self) -> usize {
        self.used
    }

    fn truncate_rows(&mut self, len: usize) {
        self.used = self.used.min(len);
    }
}
