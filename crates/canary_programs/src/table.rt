//! Tables for people, whose columns are aligned.
use canary_base::error::Memory;
use std::alloc::Global;

// What stands between two columns.
const BETWEEN: usize = 2;

/// The rows of a table, of which the first is its heading. Each cell is a text of ASCII.
#[derive(Drop)]
pub(crate) struct Table {
    alloc: Global,
    rows: Vec<Vec<String>>,
}

impl Table {
    /// A table of a heading alone.
    pub(crate) fn new(alloc: Global, heading: &[&str]) -> Result<Table, Memory> {
        let mut cells = Vec::new(alloc);
        for title in heading {
            cells.push(String::from_str(alloc, title)?)?;
        }
        let mut rows = Vec::new(alloc);
        rows.push(cells)?;
        Ok(Table { alloc, rows })
    }

    /// Adds a row.
    pub(crate) fn push(&mut self, row: Vec<String>) -> Result<(), Memory> {
        self.rows.push(row)?;
        Ok(())
    }

    /// Whether it has rows after its heading.
    pub(crate) fn has_rows(&self) -> bool {
        self.rows.len() > 1
    }

    /// Its text: a line for each row, whose cells are as wide as the longest of their column.
    pub(crate) fn text(&self) -> Result<String, Memory> {
        let widths = self.widths()?;
        let mut text = String::new(self.alloc);
        for row in self.rows.as_slice() {
            text = with_row(text, row.as_slice(), widths.as_slice())?;
        }
        Ok(text)
    }

    // How wide the longest cell of each column is.
    fn widths(&self) -> Result<Vec<usize>, Memory> {
        let mut widths = Vec::new(self.alloc);
        for row in self.rows.as_slice() {
            widths = widened(widths, row.as_slice())?;
        }
        Ok(widths)
    }
}

// These widths, each at least that of the row's cell.
fn widened(widths: Vec<usize>, row: &[String]) -> Result<Vec<usize>, Memory> {
    let mut widths = widths;
    for (column, cell) in row.iter().enumerate() {
        if column < widths.len() {
            widths[column] = widths[column].max(cell.len());
        } else {
            widths.push(cell.len())?;
        }
    }
    Ok(widths)
}

// With the line of a row. The last cell is followed by no spaces.
fn with_row(text: String, row: &[String], widths: &[usize]) -> Result<String, Memory> {
    let mut text = text;
    let mut owed = 0;
    for (column, cell) in row.iter().enumerate() {
        text = with_spaces(text, owed)?;
        text.push_str(cell.as_str())?;
        let width = widths.get(column).copied().unwrap_or(0);
        owed = width.saturating_sub(cell.len()).saturating_add(BETWEEN);
    }
    text.push_str("\n")?;
    Ok(text)
}

// The text with so many spaces after it.
fn with_spaces(text: String, count: usize) -> Result<String, Memory> {
    let mut text = text;
    for _ in 0..count {
        text.push_str(" ")?;
    }
    Ok(text)
}
