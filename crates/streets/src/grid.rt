// A yard grid: each point is joined to its neighbours in row and column.
ghost use Rattle.std.specs.Prelude.{◌≡◌, ℕ, ◌*◌, ◌/◌, ◌%◌, ◌<◌, ◌≤◌};
ghost use Rattle.streets.specs.Limits.{side_limit, seconds_limit, climb_limit};

use crate::arc::{Arc, Weight};
use crate::limits::{CLIMB_LIMIT, SECONDS_LIMIT, SIDE_LIMIT};
use crate::map::Map;

#[derive(Clone, Copy)]
pub struct GridMap {
    rows: u16,
    columns: u16,
    seconds: u16,
    climb: u16,
    ghost rows_fit: { rows ≤ side_limit },
    ghost columns_fit: { columns ≤ side_limit },
    ghost seconds_fit: { seconds ≤ seconds_limit },
    ghost climb_fits: { climb ≤ climb_limit },
}

impl GridMap {
    ghost use Rattle.streets.specs.Grid.{neighbour, made_grid};
    ghost use Rattle.streets.specs.Grids.{yard};

    // Rows and columns 1 to 32, at most 3,600 seconds for every arc, climb at most 400; made from other numbers, it has no points.
    // So wrong numbers need no constructor that refuses.
    pub fn new(rows: usize, columns: usize, seconds: usize, climb: usize) -> GridMap
        ensures { yard result ≡ made_grid rows columns seconds climb }
    {
        if (1..=SIDE_LIMIT).contains(&rows)
            && (1..=SIDE_LIMIT).contains(&columns)
            && seconds <= usize::from(SECONDS_LIMIT)
            && climb <= usize::from(CLIMB_LIMIT)
        {
            // `as`: the test shows that nothing is lost
            GridMap {
                rows: rows as u16,
                columns: columns as u16,
                seconds: seconds as u16,
                climb: climb as u16,
            }
        } else {
            GridMap {
                rows: 0,
                columns: 0,
                seconds: 0,
                climb: 0,
            }
        }
    }

    // The point that a slot leads to.
    fn beside(&self, point: usize, index: usize) -> Option<usize>
        requires { point < self.now.rows * self.now.columns }
        ensures { result ≡ neighbour self.now.rows self.now.columns (point / self.now.columns) (point % self.now.columns) index }
    {
        let columns = usize::from(self.columns);
        let row = point / columns;
        let column = point % columns;
        match index {
            0 if column + 1 < columns => Some(row * columns + (column + 1)),
            1 if row + 1 < usize::from(self.rows) => Some((row + 1) * columns + column),
            2 if 0 < column => Some(row * columns + (column - 1)),
            3 if 0 < row => Some((row - 1) * columns + column),
            _ => None,
        }
    }
}

impl Map for GridMap {
    ghost use Rattle.streets.specs.Grids.{yard, yard_lawful};

    ghost view = { yard };

    ghost lawful = { yard_lawful };

    fn points(&self) -> usize {
        usize::from(self.rows) * usize::from(self.columns)
    }

    fn slots(&self, point: usize) -> usize {
        if point < self.points() { 4 } else { 0 }
    }

    #[tactic(auto, using(crate::specs::Grids::small_arc))]
    fn slot(&self, point: usize, index: usize) -> Option<Arc> {
        if point >= self.points() {
            return None;
        }
        let head = self.beside(point, index)?;
        // `as`: a grid has at most 1,024 points
        Some(Arc {
            number: (4 * point + index) as u16,
            head: head as u16,
            weight: Weight {
                seconds: self.seconds,
                climb: if index == 3 { self.climb } else { 0 },
                toll: 0,
            },
        })
    }
}
