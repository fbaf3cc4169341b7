ghost use Rattle.std.specs.Prelude.{◌≡◌, ◌≢◌, ℕ, ◌<◌, ◌≤◌, [], List, length, map, slice_index_or, slice_set, IfOk};

use crate::NoMemory;
use sqlite_items::Items;
use std::alloc::Global;
use std::mem;

/// Takes an array out, and leaves one of no cells.
pub(crate) fn take_out(alloc: Global, arrays: &mut [Items<i128>], number: u32) -> Items<i128>
    requires { number < length arrays.old }
    ensures array { result ≡ slice_index_or arrays.old number [] }
    ensures rest { arrays.new ≡ slice_set arrays.old number [] }
{
    mem::replace(&mut arrays[number as usize], Items::new(alloc))
}

/// Puts an array back.
pub(crate) fn put_back(arrays: &mut [Items<i128>], number: u32, array: Items<i128>)
    requires { number < length arrays.old }
    ensures { arrays.new ≡ slice_set arrays.old number array }
{
    arrays[number as usize] = array;
}

/// Exchanges the arrays of the outputs, whose numbers are these, with those of the inputs.
pub(crate) fn exchange(outputs: &[u32], arrays: &mut [Items<i128>])
    requires few { length outputs.now ≤ length arrays.old }
    requires there { (j : ℕ) → j < length outputs.now → slice_index_or outputs.now j 0 < length arrays.old }
    requires behind { (j : ℕ) → j < length outputs.now → length outputs.now ≤ slice_index_or outputs.now j 0 }
    requires apart { (i j : ℕ) → i < j → j < length outputs.now
        → slice_index_or outputs.now i 0 ≢ slice_index_or outputs.now j 0 }
    ensures many { length arrays.new ≡ length arrays.old }
    ensures inputs { (j : ℕ) → j < length outputs.now → slice_index_or arrays.new j []
        ≡ slice_index_or arrays.old (slice_index_or outputs.now j 0) [] }
    ensures whole { (n : ℕ) → ((x : ℕ) → x < length arrays.old → length (slice_index_or arrays.old x []) ≡ n)
        → (x : ℕ) → x < length arrays.old → length (slice_index_or arrays.new x []) ≡ n }
{
    for number in 0..outputs.len() {
        arrays.swap(number, outputs[number] as usize);
    }
}

/// The arrays of these numbers, in order.
pub(crate) fn take_all(
    alloc: Global,
    numbers: &[u32],
    arrays: Vec<Items<i128>>,
) -> Result<Vec<Items<i128>>, NoMemory>
    requires there { (j : ℕ) → j < length numbers.now → slice_index_or numbers.now j 0 < length arrays.items }
    requires apart { (i j : ℕ) → i < j → j < length numbers.now
        → slice_index_or numbers.now i 0 ≢ slice_index_or numbers.now j 0 }
    ensures { IfOk result (λ taken. taken.items ≡ map (λ x. slice_index_or arrays.items x []) numbers.now) }
{
    let mut arrays = arrays;
    let mut taken = Vec::new(alloc);
    for number in numbers {
        taken.push(take_out(alloc, &mut arrays, *number))?;
    }
    Ok(taken)
}
