// A row of the chart as it is written.
use std::fmt;
use std::fmt::Write;

// What is written goes on to `out`; `column` is where the row stands.
#[derive(Drop)]
pub struct Row<'a, W: fmt::Write> {
    out: &'a mut fmt::Formatter<W>,
    column: usize,
}

impl<'a, W: fmt::Write> Row<'a, W> {
    pub fn new(out: &'a mut fmt::Formatter<W>) -> Self {
        Row { out, column: 0 }
    }

    // Writes blanks up to column `to`.
    pub fn pad(&mut self, to: usize) -> fmt::Result {
        let n = to.saturating_sub(self.column);
        write!(self, "{:n$}", "")
    }
}

impl<'a, W: fmt::Write> fmt::Write for Row<'a, W> {
    fn write_str(&mut self, s: &str) -> fmt::Result {
        self.column = self.column.saturating_add(s.len());
        self.out.write_str(s)
    }
}
