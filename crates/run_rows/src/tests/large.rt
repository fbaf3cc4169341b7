//! A larger run: both stages of a blur over 2,000 by 10 cells.

use super::fit::run;
use sqlite_items::Items;
use std::alloc::{AllocError, Global};
use std::test::Fail;

const BLUR: &[u8] =
    b"kernel: blur\nburst width: 512\nunroll factor: 16\ninput uint16: input(2000, *)\n\
local uint16: blur_x(0, 0) = (input(0, 0) + input(0, 1) + input(0, 2)) / 3\n\
output uint16: blur_y(0, 0) = (blur_x(0, 0) + blur_x(1, 0) + blur_x(2, 0)) / 3\n";

const WIDTH: usize = 2_000;

const ROWS: usize = 10;

// One array of equal cells.
fn equal_cells(alloc: Global, count: usize) -> Result<Vec<Items<i128>>, AllocError> {
    let cells = vec![in alloc; 6; count]?;
    let mut inputs = Vec::new(alloc);
    inputs.push(Items::from_vec(cells))?;
    Ok(inputs)
}

// How many cells are 6 where both coordinates are at least 2 below the extents, and 0 elsewhere.
fn right_cells(cells: &[i128]) -> usize {
    let mut right = 0;
    for number in 0..cells.len() {
        let is_inside = number % WIDTH < WIDTH - 2 && number / WIDTH < ROWS - 2;
        let wanted = if is_inside { 6 } else { 0 };
        if cells[number] == wanted {
            right += 1;
        }
    }
    right
}

#[test]
fn twenty_thousand_cells(rt: HostRuntime) -> Result<(), Fail> {
    let inputs = equal_cells(rt.alloc(), WIDTH * ROWS)?;
    match run(rt.alloc(), BLUR, ROWS as u64, &inputs, &[])? {
        Some(outputs) => match outputs.as_slice() {
            [cells] => {
                assert_eq!(rt; cells.len(), WIDTH * ROWS);
                assert_eq!(rt; right_cells(cells.as_slice()), WIDTH * ROWS);
            }
            _ => assert_eq!(rt; outputs.len(), 1),
        },
        None => assert_eq!(rt; "refused", "run"),
    }
    Ok(())
}
