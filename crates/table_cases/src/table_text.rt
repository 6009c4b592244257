//! Texts, JSON values, cells and tables in words.
ghost use Rattle.std.specs.Prelude.{All};
ghost use Rattle.table_schema.specs.Printed.{IsValue};

use cases::Buffer;
use datastore_table::{Row, Table};
use portal_base::json_value::Json;
use portal_base::text::Text;
use std::alloc::{AllocError, Global};
use table_schema::{Cell, cell_text};

/// Writes the text, where there was memory for it.
fn push_text(answer: &mut Buffer, text: &Result<Text, AllocError>) {
    match text {
        Ok(text) => answer.push(text.as_str()),
        Err(_) => answer.run_out(),
    }
}

/// Writes the JSON text of the value.
pub fn push_json(alloc: Global, answer: &mut Buffer, value: &Json) {
    push_text(answer, &value.text(alloc));
}

/// Writes the cells, each in brackets.
pub fn push_cells(alloc: Global, answer: &mut Buffer, cells: &[Cell])
    requires { All IsValue cells.now }
{
    for cell in cells {
        answer.push("[");
        push_text(answer, &cell_text(alloc, cell));
        answer.push("]");
    }
}

fn push_rows(alloc: Global, answer: &mut Buffer, rows: &[Row])
    requires { All (λ row. All IsValue row.cells) rows.now }
{
    for row in rows {
        answer.push_value(&row.id);
        answer.push(" ");
        push_cells(alloc, answer, row.cells.as_slice());
        answer.push(" ");
    }
}

/// Writes each row with its `_id`, and the next `_id`.
pub fn push_table(alloc: Global, answer: &mut Buffer, table: &Table) {
    push_rows(alloc, answer, table.rows());
    answer.push("next ");
    answer.push_value(&table.next_id());
}
