ghost use Rattle.std.specs.Prelude.{◌≡◌, ◌+◌, ◌*◌, ◌%◌, slice_index_or, pos, fold, EachIndex};
ghost use Rattle.std.specs.Int.{int_wrapping_add};
ghost use mir.Syntax.{w128};
ghost use Rattle.bench_cycles.specs.Blurred.{IsLaw, cell_at};

use net_cycles::Datapath;
use net_ir::{Module, Network, NoMemory};

/// The modules of a blur: a source sends its cells, a forwarding module what it took, and a computing module the sum of
/// what it took. A sink sums what it took.
#[derive(Drop)]
pub(crate) struct Blur {
    pub(crate) checksum: i128,
}

impl Datapath<()> for Blur {
    type Fault = NoMemory;

    ghost agrees = { λ d env net stream. IsLaw net stream };

    ghost ready = { λ d env net fired. Unit {0} };

    ghost relies = { λ d net fired m. Unit {0} };

    ghost onward = { λ a x b y. Unit {0} };

    ghost stopped = { λ a x b y net fired m fault. Unit {0} };

    ghost stays = { λ d x. tt };

    ghost follows = { λ a b c x y z one two. tt };

    ghost since = { λ a b c x y z net fired m fault one two. tt };

    fn fire(
        &mut self,
        _env: &mut (),
        net: &Network,
        module: u32,
        fired: &[u64],
        ports: &[i128],
        sends: &mut [i128],
    ) -> Result<(), NoMemory> {
        match net.modules()[module as usize] {
            Module::Source { .. } => {
                send_cells(fired[module as usize], sends);
                Ok(())
            }
            Module::Forward { .. } => {
                send_same(first(ports), sends);
                Ok(())
            }
            Module::Compute { .. } => {
                send_same(sum(ports), sends);
                Ok(())
            }
            Module::Sink { .. } => {
                self.checksum = self.checksum.wrapping_add(sum(ports));
                send_same(0, sends);
                Ok(())
            }
        }
    }
}

/// The cells of a firing of a source, by lane.
fn send_cells(firing: u64, sends: &mut [i128])
    ensures { EachIndex sends.new (λ j. slice_index_or sends.new j (pos 0) ≡ cell_at firing j) }
{
    let cell = 16 * (firing % 4096);
    for (lane, value) in sends.iter_mut().enumerate() {
        *value = i128::from(cell) + lane as i128;
    }
}

/// The value at the first port, or 0 where there is none.
fn first(ports: &[i128]) -> i128
    ensures { result ≡ slice_index_or ports.now 0 (pos 0) }
{
    match ports.first() {
        Some(value) => *value,
        None => 0,
    }
}

/// The same value for each queue.
fn send_same(sent: i128, sends: &mut [i128])
    ensures { EachIndex sends.new (λ j. slice_index_or sends.new j (pos 0) ≡ sent) }
{
    for value in sends.iter_mut() {
        *value = sent;
    }
}

/// The sum of the values at the ports.
fn sum(ports: &[i128]) -> i128
    ensures { result ≡ fold (int_wrapping_add w128) (pos 0) ports.now }
{
    let mut total: i128 = 0;
    for value in ports {
        total = total.wrapping_add(*value);
    }
    total
}
