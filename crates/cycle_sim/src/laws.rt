ghost use Rattle.std.specs.Prelude.{◌≡◌, ℕ, ◌<◌, All, List, Some, ℤ, false, length, slice_get};
ghost use Rattle.soda_ir.specs.Counts.{count_below, is_input, is_output};
ghost use Rattle.soda_ir.specs.Program.{input_types};
ghost use Rattle.time_stages.specs.declared.staging.StagedTensor.{StagedTensor};
ghost use Rattle.time_stages.specs.Staged.{staged_tensors};
ghost use Rattle.cycle_sim.specs.Ends.{AreWhole};
ghost use Rattle.int_types.specs.Ranges.{InRange};
ghost use Rattle.net_ir.specs.Nets.{entrances, exits, queue_at};
ghost use Rattle.net_ir.specs.declared.network.Module.TheVariants.{Compute, Sink, Source};
ghost use Rattle.net_cycles.specs.Streams.{port_values, sent_values};
ghost use Rattle.soda_ir.specs.Points.{listed};
ghost use Rattle.staged_cells.specs.Cells.{port_types, type_at};
ghost use Rattle.staged_cells.specs.Sends.{output_of};
ghost use Rattle.staged_cells.specs.Streams.{cell_number, module_at, stage_cell};
ghost use Rattle.cycle_sim.specs.Settings.{AreInputs, IsSettings, Settings, net_in, plan_in, streams_over};
ghost use Rattle.cycle_sim.specs.Sends.{SendsBy, exit_lanes};

use net_build::programs_have_plans;
use net_ir::queues_stand_in_order;
use net_shape::{modules_are_numbered, networks_fit};
use staged_cells::{
    inputs_are_staged_first, modules_send_streams, ports_are_of_reads, sinks_take_arrays,
    stage_cells_are_in_range,
};
use time_stages::{placing_is_good, staged_tensors_keep_margins};

/// A module that sends what `SendsBy` says, where its ports hold the streams of its queues, sends the items of the
/// streams of the queues from it.
pub fn modules_of_a_run_send()
    ensures { (c : Settings) (inputs : List (List ℤ)) (m k : ℕ) (ports sends : List ℤ) → IsSettings c
        → AreInputs c inputs → ports ≡ port_values (net_in c) (streams_over c inputs) m k
        → length sends ≡ length (exits (net_in c) m)
        → SendsBy c inputs (module_at (net_in c) m) k (exit_lanes (net_in c) m) ports sends
        → sends ≡ sent_values (net_in c) (streams_over c inputs) m k }
{
    modules_send_streams();
    queues_stand_in_order()
}

/// Where the ports of a sink hold the streams of its queues, they hold the cells of its output, lane by lane.
pub fn sinks_of_a_run_take()
    ensures { (c : Settings) (inputs : List (List ℤ)) (m v k : ℕ) (ports : List ℤ) → IsSettings c
        → m < length (net_in c).modules → module_at (net_in c) m ≡ Sink v
        → ports ≡ port_values (net_in c) (streams_over c inputs) m k
        → ports ≡ listed (λ lane. stage_cell c.program c.rows c.params inputs v (cell_number (plan_in c) v lane k))
        c.program.unroll }
{
    sinks_take_arrays()
}

/// The cells of a staged tensor are in the range of its type.
pub fn cells_of_a_run_are_in_range()
    ensures { (c : Settings) (inputs : List (List ℤ)) (v : ℕ) (z : ℤ) → IsSettings c → AreInputs c inputs
        → InRange (type_at c.program v) (stage_cell c.program c.rows c.params inputs v z) }
{
    stage_cells_are_in_range()
}

/// No two modules of a run are one, and no two sinks are of outputs of one number.
pub fn modules_of_a_run_are_apart()
    ensures modules { (c : Settings) (m n : ℕ) → IsSettings c → m < length (net_in c).modules
        → n < length (net_in c).modules → module_at (net_in c) m ≡ module_at (net_in c) n → m ≡ n }
    ensures sinks { (c : Settings) (m n v w : ℕ) → IsSettings c → m < length (net_in c).modules
        → n < length (net_in c).modules → module_at (net_in c) m ≡ Sink v → module_at (net_in c) n ≡ Sink w
        → output_of c.program v ≡ output_of c.program w → m ≡ n }
{
    programs_have_plans();
    modules_are_numbered();
    placing_is_good();
    staged_tensors_keep_margins();
}

/// The source of a run is of one of the inputs, whole cells of whose type fill a burst, and so is the sink of one of the
/// outputs. A computing module is of a staged tensor that is no input, and has a port for each read of it. The lanes of the
/// modules to which queues from a module lead are below the unroll factor.
pub fn modules_of_a_run_have_ends()
    ensures source { (c : Settings) (m v : ℕ) → IsSettings c → m < length (net_in c).modules
        → module_at (net_in c) m ≡ Source v
        → (v < length (input_types c.program.tensors)) × AreWhole c.program.burst (type_at c.program v) }
    ensures sink { (c : Settings) (m v : ℕ) → IsSettings c → m < length (net_in c).modules
        → module_at (net_in c) m ≡ Sink v → (output_of c.program v
        < count_below (is_output c.program) (length c.program.tensors))
        × AreWhole c.program.burst (type_at c.program v) }
    ensures compute { (c : Settings) (m v lane : ℕ) → IsSettings c → m < length (net_in c).modules
        → module_at (net_in c) m ≡ Compute v lane → (lane < c.program.unroll)
        × ((s : StagedTensor) × (slice_get (staged_tensors c.program) v ≡ Some s)
        × (is_input c.program s.tensor ≡ false))
        × (length (entrances (net_in c) m) ≡ length (port_types c.program v)) }
    ensures lanes { (c : Settings) (m : ℕ) → IsSettings c → m < length (net_in c).modules
        → All (λ lane. lane < c.program.unroll) (exit_lanes (net_in c) m) }
{
    programs_have_plans();
    modules_are_numbered();
    networks_fit();
    queues_stand_in_order();
    inputs_are_staged_first();
    staged_tensors_keep_margins();
    ports_are_of_reads();
}

/// Each queue of a run can hold something.
pub fn queues_of_a_run_have_room()
    ensures { (c : Settings) (queue : ℕ) → IsSettings c → queue < length (net_in c).queues
        → 0 < (queue_at (net_in c).queues queue).capacity }
{
    programs_have_plans();
    networks_fit();
}

/// The sources of a run stand in the order of their inputs.
pub fn sources_of_a_run_stand_in_order()
    ensures { (c : Settings) (m n v w : ℕ) → IsSettings c → m < length (net_in c).modules
        → n < length (net_in c).modules → module_at (net_in c) m ≡ Source v → module_at (net_in c) n ≡ Source w
        → v < w → m < n }
{
    programs_have_plans();
    modules_are_numbered();
}
