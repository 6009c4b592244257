//! The answers to queries.
ghost use Rattle.std.specs.Prelude.{All, IsTrue};
ghost use Rattle.table_schema.specs.Printed.{IsValue};
ghost use Rattle.table_schema.specs.Values.{is_map};

use crate::batch::filled;
use crate::parts::parts_of;
use crate::table_text::push_cells;
use cases::{Buffer, Case};
use datastore_query::{Page, Parts, Query, QueryFault};
use datastore_table::Table;
use portal_base::seq::Seq;
use portal_base::text::Text;
use std::alloc::{AllocError, Global};
use std::io;
use table_schema::Cell;

fn push_rows(alloc: Global, answer: &mut Buffer, rows: &[Seq<Cell>])
    requires { All (All IsValue) rows.now }
{
    for row in rows {
        answer.push(" ");
        push_cells(alloc, answer, row.as_slice());
    }
}

/// Writes the names of a page's columns, its rows and how many there are on all pages.
fn push_page(alloc: Global, answer: &mut Buffer, page: &Page)
    requires { All (All IsValue) page.now.rows }
{
    for name in page.columns.as_slice() {
        answer.push_bracketed(name.as_bytes());
    }
    answer.push(":");
    push_rows(alloc, answer, page.rows.as_slice());
    answer.push("; total ");
    answer.push_value(&page.total);
}

fn push_ids(answer: &mut Buffer, ids: &[u64]) {
    answer.push("; ids");
    for id in ids {
        answer.push(" ");
        answer.push_value(id);
    }
}

/// Writes each faulty part with its error.
fn push_errors(answer: &mut Buffer, errors: &[(Text, Text)]) {
    for (part, message) in errors {
        answer.divide("; ");
        answer.push_all(&[part.as_str(), ": ", message.as_str()]);
    }
}

fn push_answer(
    alloc: Global,
    answer: &mut Buffer,
    table: &Table,
    query: &Query,
) -> Result<(), AllocError> {
    push_page(alloc, answer, &query.run(alloc, table)?);
    push_ids(answer, query.ids(alloc, table)?.as_slice());
    Ok(())
}

/// Writes the answer to the query of these parts, or the errors of the parts.
fn push_answer_to(
    alloc: Global,
    answer: &mut Buffer,
    table: &Table,
    parts: &Parts,
) -> Result<(), AllocError>
    requires { IsTrue (is_map parts.now.filters) }
{
    match Query::read(alloc, table, parts) {
        Ok(query) => return push_answer(alloc, answer, table, &query),
        Err(QueryFault::Fields(errors)) => push_errors(answer, errors.as_slice()),
        Err(QueryFault::OutOfMemory) => answer.run_out(),
    }
    Ok(())
}

/// A descriptor, records and the parts of a query: the page and the `_id`s of the rows that pass the filters, or the
/// error of each part that can't be read.
pub fn page(alloc: Global, case: &Case, answer: &mut Buffer) -> io::Result<()> {
    let (descriptor, records, parts) = case.three_texts()?;
    let parts = parts_of(alloc, parts)?;
    let table = filled(alloc, descriptor, records)?;
    push_answer_to(alloc, answer, &table, &parts)?;
    Ok(())
}
