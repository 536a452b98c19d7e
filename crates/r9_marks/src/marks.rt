//! Marks on the cells of 32 by 32 places of a table, such as the pixels of a picture that were written.
#![tactic(auto)]

ghost use Rattle.std.specs.Prelude.{◌≡◌, ◌+◌, ◌-◌, ◌*◌, ◌^◌, ◌<◌, ◌≤◌, ℕ, true, false, vec_len, IfOk, ◌&&◌, ◌||◌};

use r9_memory::Memory;
use std::alloc::Global;

/// How many columns and rows a cell has that is not cut.
pub const CELL_SIDE: usize = 32;

/// How many cells lie over so many places side by side. The last may be cut.
pub fn cells_over(count: usize) -> usize
    ensures { result ≡ cells_over count }
{
    count.div_ceil(CELL_SIDE)
}

/// A mark for each cell of a table, row by row.
#[derive(Drop)]
pub struct Marks {
    across: usize,
    down: usize,
    bits: Vec<bool>,
    ghost sized: { vec_len bits ≡ down * across },
}

ghost use Rattle.r9_marks.specs.marks.Cells.{cells_over, count_cells, touches};

impl Marks {
    ghost use Rattle.r9_marks.specs.marks.Marks.{across_of, down_of, marked, marked_count};

    /// No mark, on a table of so many columns and rows of cells.
    pub fn new(alloc: Global, across: usize, down: usize) -> Result<Marks, Memory>
        requires { down * across < 2 ^ 63 }
        ensures across { IfOk result (λ marks. across_of marks ≡ across) }
        ensures down { IfOk result (λ marks. down_of marks ≡ down) }
        ensures marks { IfOk result (λ marks. (column row : ℕ) → marked marks column row ≡ false) }
        ensures count { IfOk result (λ marks. marked_count marks ≡ 0) }
    {
        let bits = vec![in alloc; false; down * across]?;
        Ok(Marks { across, down, bits })
    }

    /// Whether a cell is marked.
    pub fn is_marked(&self, column: usize, row: usize) -> bool
        requires column { column < across_of self.now }
        requires row { row < down_of self.now }
        ensures { result ≡ marked self.now column row }
    {
        self.bits[row * self.across + column]
    }

    /// How many cells are marked is how many of the table's cells are. Nothing is done.
    pub fn sound(&self)
        ensures { marked_count self.now ≡ count_cells (across_of self.now) (down_of self.now) (marked self.now) }
    {}

    // Marks a cell.
    fn mark_cell(&mut self, column: usize, row: usize)
        requires column { column < across_of self.old }
        requires row { row < down_of self.old }
        ensures here { marked self.new column row ≡ true }
        ensures others { (c r : ℕ) → (c ≡ column → r ≡ row → ⊥) → marked self.new c r ≡ marked self.old c r }
        ensures few { marked_count self.new ≤ marked_count self.old + 1 }
        ensures across { across_of self.new ≡ across_of self.old }
        ensures down { down_of self.new ≡ down_of self.old }
    {
        self.bits[row * self.across + column] = true;
    }

    // Marks cells side by side.
    fn mark_row(&mut self, row: usize, first: usize, end: usize)
        requires row { row < down_of self.old }
        requires order { first ≤ end }
        requires end { end ≤ across_of self.old }
        ensures here { (c : ℕ) → first ≤ c → c < end → marked self.new c row ≡ true }
        ensures others { (c r : ℕ) → (r ≡ row → first ≤ c → c < end → ⊥) → marked self.new c r ≡ marked self.old c r }
        ensures few { marked_count self.new ≤ marked_count self.old + (end - first) }
        ensures across { across_of self.new ≡ across_of self.old }
        ensures down { down_of self.new ≡ down_of self.old }
    {
        for column in first..end {
            self.mark_cell(column, row);
        }
    }

    // Marks the cells in some columns and rows of cells.
    fn mark_block(&mut self, first: usize, end: usize, top: usize, bottom: usize)
        requires columns { first ≤ end }
        requires across { end ≤ across_of self.old }
        requires rows { top ≤ bottom }
        requires down { bottom ≤ down_of self.old }
        ensures here { (c r : ℕ) → first ≤ c → c < end → top ≤ r → r < bottom → marked self.new c r ≡ true }
        ensures others { (c r : ℕ) → (first ≤ c → c < end → top ≤ r → r < bottom → ⊥) → marked self.new c r ≡ marked self.old c r }
        ensures few { marked_count self.new ≤ marked_count self.old + (end - first) * (bottom - top) }
        ensures across { across_of self.new ≡ across_of self.old }
        ensures down { down_of self.new ≡ down_of self.old }
    {
        for row in top..bottom {
            self.mark_row(row, first, end);
        }
    }

    /// Marks the cells in which some places lie, and no others: so many columns and rows of places, from one on.
    pub fn mark(&mut self, column: usize, row: usize, width: usize, height: usize)
        requires wide { 0 < width }
        requires tall { 0 < height }
        requires columns { column + width < 2 ^ 63 }
        requires rows { row + height < 2 ^ 63 }
        requires across { cells_over (column + width) ≤ across_of self.old }
        requires down { cells_over (row + height) ≤ down_of self.old }
        ensures marks { (c r : ℕ) → marked self.new c r ≡ (touches column width c && touches row height r || marked self.old c r) }
        ensures few { marked_count self.new ≤ marked_count self.old + width * height }
        ensures across { across_of self.new ≡ across_of self.old }
        ensures down { down_of self.new ≡ down_of self.old }
    {
        let end = cells_over(column + width);
        let bottom = cells_over(row + height);
        self.mark_block(column / CELL_SIDE, end, row / CELL_SIDE, bottom);
    }

    /// Clears all marks.
    pub fn clear(&mut self)
        ensures marks { (column row : ℕ) → marked self.new column row ≡ false }
        ensures count { marked_count self.new ≡ 0 }
        ensures across { across_of self.new ≡ across_of self.old }
        ensures down { down_of self.new ≡ down_of self.old }
    {
        self.bits.fill(false);
    }
}
