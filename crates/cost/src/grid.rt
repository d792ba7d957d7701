//! A grid of rows and columns over a caller's slice of cells.
ghost use Rattle.std.specs.Prelude.{◌≡◌, ◌+◌, ◌*◌, ◌<◌, ◌≤◌, length, replicate, IfSome, MatchOption, slice_set};
ghost use Rattle.std.specs.List.{slice_get};
ghost use Rattle.std.specs.Option.{option_map};

use std::mem;

/// Rows one after another over cells that the caller lends; the cells past the last row are not used.
#[derive(Drop)]
pub struct Grid<'a, C> {
    cells: &'a mut [C],
    rows: usize,
    columns: usize,
    ghost fits: { rows * columns ≤ length cells.now },
}

impl<'a, C: Copy> Grid<'a, C> {
    ghost use Rattle.cost.specs.Grid.{table, Laid, row_start, place, row_of, cell, with_cell, filled};

    /// Lays rows over the cells; none if the cells are too few.
    pub fn new(cells: &'a mut [C], rows: usize, columns: usize) -> Option<Grid<'a, C>>
        ensures { MatchOption result (length cells.old < rows * columns) (Laid rows columns cells.entry) }
    {
        if rows.checked_mul(columns)? > cells.len() {
            return None;
        }
        Some(Grid {
            cells,
            rows,
            columns,
        })
    }

    pub fn rows(&self) -> usize
        ensures { result ≡ (table self.now).rows }
    {
        self.rows
    }

    pub fn columns(&self) -> usize
        ensures { result ≡ (table self.now).columns }
    {
        self.columns
    }

    /// What a cell holds; none outside of the rows and columns.
    pub fn get(&self, row: usize, column: usize) -> Option<C>
        ensures { result ≡ cell (table self.now) row column }
    {
        let i = self.place_of(row, column)?;
        Some(self.cells[i])
    }

    /// Puts a value into a cell and answers what it held before; none outside, where nothing changes.
    pub fn put(&mut self, row: usize, column: usize, value: C) -> Option<C>
        ensures held { result ≡ cell (table self.old) row column }
        ensures after { table self.new ≡ with_cell (table self.old) row column value }
        ensures slice { self.new.cells.ghost_name ≡ self.old.cells.ghost_name }
    {
        let i = self.place_of(row, column)?;
        let cells = &mut *self.cells;
        Some(mem::replace(&mut cells[i], value))
    }

    /// Puts a value into every cell.
    pub fn fill(&mut self, value: C)
        ensures after { table self.new ≡ filled (table self.old) value }
        ensures slice { self.new.cells.ghost_name ≡ self.old.cells.ghost_name }
    {
        self.cells.fill_with(|| value);
    }

    /// The cells of a row, to hand on; none outside of the rows.
    pub fn row(&self, row: usize) -> Option<&[C]>
        ensures { option_map (λ x. x.now) result ≡ row_of (table self.now) row }
    {
        let from = self.start_of(row)?;
        Some(&self.cells[from..from + self.columns])
    }

    /// All cells, to hand on.
    pub fn cells(&self) -> &[C]
        ensures { result.now ≡ (table self.now).cells }
    {
        &*self.cells
    }

    /// The caller's slice itself, to hand on in the place of the grid.
    pub fn into_cells(self) -> &'a mut [C]
        ensures value { result.now ≡ (table self.entry).cells }
        ensures slice { result.ghost_name ≡ self.entry.cells.ghost_name }
    {
        let cells = self.cells;
        cells
    }

    /// Where a row begins; none outside of the rows.
    fn start_of(&self, row: usize) -> Option<usize>
        ensures value { result ≡ row_start (table self.now) row }
        ensures within { IfSome result (λ from. from + self.now.columns ≤ length self.now.cells.now) }
    {
        if row >= self.rows {
            return None;
        }
        Some(row * self.columns)
    }

    /// Where a row has a column; none outside of the rows and columns.
    fn place_of(&self, row: usize, column: usize) -> Option<usize>
        ensures value { result ≡ place (table self.now) row column }
        ensures within { IfSome result (λ i. i < length self.now.cells.now) }
    {
        if column >= self.columns {
            return None;
        }
        Some(self.start_of(row)? + column)
    }
}
