ghost use Rattle.std.specs.Prelude.{◌≡◌, ℕ, ◌+◌, ◌-◌, ◌*◌, ◌<◌, ◌≤◌, ◌↔◌, ◌&&◌, List, [], Some, ℤ, pos, length, map, min, false, true, slice_get, slice_index, slice_index_or};
ghost use Rattle.int_types.specs.Ranges.{InRange};
ghost use Rattle.net_ir.specs.declared.network.Module.TheVariants.{Compute, Forward, Sink, Source};
ghost use Rattle.net_ir.specs.Firings.{firings_at};
ghost use Rattle.net_ir.specs.Nets.{Net, entrances, exits, queue_at};
ghost use Rattle.net_build.specs.Planned.{firings_for, net_under, plan_of};
ghost use Rattle.soda_ir.specs.Counts.{formula_in, is_input, is_output, output_number};
ghost use Rattle.soda_ir.specs.Formula.{Formula};
ghost use Rattle.soda_ir.specs.Points.{listed};
ghost use Rattle.soda_ir.specs.Program.{PlainProgram, extents_at, input_types, preserves};
ghost use Rattle.soda_ir.specs.Valid.{IsSound};
ghost use Rattle.soda_eval.specs.Arrays.{Each};
ghost use Rattle.soda_eval.specs.Runs.{HasArrays, HasValues, cells_at, defined_arrays};
ghost use Rattle.time_stages.specs.declared.staging.StagedTensor.{StagedTensor};
ghost use Rattle.time_stages.specs.Staged.{staged_tensors, type_of};
ghost use Rattle.staged_cells.specs.Cells.{border_port, cell_port, defined_cell, port_types, sent_cell};
ghost use Rattle.staged_cells.specs.Sends.{
  AreLonger,
  AreSent,
  IsPrefix,
  PortsCarry,
  array_of,
  firings_given,
  handed_list,
  items_given,
  numbered,
  output_of,
  port_items,
  sent_item,
  sent_list,
  wrapped_ports,
};
ghost use Rattle.staged_cells.specs.Streams.{
  HasStreams,
  cell_number,
  lane_of,
  module_at,
  receiver,
  sender,
  sender_of,
  stage_cell,
  stream,
};

use net_ir::queues_stand_in_order;
use net_shape::networks_fit;
use time_stages::staging_makes_a_net;

/// Each defined cell of a staged tensor is in the range of its type, where the cells of the inputs are; and those of a
/// staged input are the cells of its array.
pub fn stage_cells_are_in_range()
    ensures range { (p : PlainProgram) (rows : ℕ) (params : List ℤ) (inputs : List (List ℤ)) (v : ℕ) (s : StagedTensor)
        (z : ℤ) → IsSound p → slice_get (staged_tensors p) v ≡ Some s
        → HasArrays (cells_at p rows) (input_types p.tensors) inputs
        → InRange (type_of p s.tensor) (defined_cell p rows params inputs s z) }
    ensures source { (p : PlainProgram) (rows : ℕ) (params : List ℤ) (inputs : List (List ℤ)) (v : ℕ) (s : StagedTensor)
        (z : ℤ) → IsSound p → slice_get (staged_tensors p) v ≡ Some s
        → HasArrays (cells_at p rows) (input_types p.tensors) inputs → is_input p s.tensor ≡ true
        → defined_cell p rows params inputs s z ≡ numbered (slice_index_or inputs s.tensor []) z }
{}

/// Each cell that the formula of a staged tensor names is read at a port of its type; so is, under preserve, the input
/// that an output keeps outside its region. A staged tensor that is no input has a formula.
pub fn formulas_read_ports()
    ensures cells { (p : PlainProgram) (v : ℕ) (s : StagedTensor) (f : Formula) → IsSound p
        → slice_get (staged_tensors p) v ≡ Some s → formula_in p s.tensor ≡ Some f
        → Each (λ y o. slice_get (port_types p v) (cell_port p v s y o) ≡ Some (type_of p y)) f }
    ensures border { (p : PlainProgram) (v : ℕ) (s : StagedTensor) → IsSound p
        → slice_get (staged_tensors p) v ≡ Some s → (preserves p && is_output p s.tensor) ≡ true
        → slice_get (port_types p v) (border_port p v s) ≡ Some (type_of p (output_number p s.tensor)) }
    ensures formula { (p : PlainProgram) (v : ℕ) (s : StagedTensor) → IsSound p
        → slice_get (staged_tensors p) v ≡ Some s → is_input p s.tensor ≡ false
        → (f : Formula) × (formula_in p s.tensor ≡ Some f) }
{}

/// The margins of a staged tensor are as many as there are dimensions.
pub fn stages_have_dimensions()
    ensures { (p : PlainProgram) (rows v : ℕ) (s : StagedTensor) → IsSound p
        → slice_get (staged_tensors p) v ≡ Some s → (length s.low ≡ length (extents_at p rows))
        × (length s.high ≡ length (extents_at p rows)) }
{}

/// The inputs are staged first, each at its own number, in the first iteration alone.
pub fn inputs_are_staged_first()
    ensures { (p : PlainProgram) (v : ℕ) (s : StagedTensor) → IsSound p → slice_get (staged_tensors p) v ≡ Some s
        → is_input p s.tensor ≡ true → (s.turn ≡ 1) × (s.tensor ≡ v) }
{}

/// Where in a firing each port of a module from which the firing takes holds the item of its queue's stream, what the
/// module sends into a queue is the firing's item of that queue's stream; so all that it sends, in queue order, are
/// those items.
pub fn modules_send_streams()
    ensures item { (p : PlainProgram) (delays : List ℕ) (rows : ℕ) (params : List ℤ) (inputs : List (List ℤ))
        (queue k : ℕ) (ports : List ℤ) → HasStreams p delays
        → HasArrays (cells_at p rows) (input_types p.tensors) inputs → queue < length (net_under p delays).queues
        → PortsCarry (net_under p delays) (stream p rows params inputs delays) (sender_of (net_under p delays) queue) k
        ports
        → sent_item p rows params delays (array_of inputs (sender (net_under p delays) queue)) queue k ports
        ≡ stream p rows params inputs delays queue k }
    ensures all { (p : PlainProgram) (delays : List ℕ) (rows : ℕ) (params : List ℤ) (inputs : List (List ℤ))
        (m k : ℕ) (ports : List ℤ) → HasStreams p delays → HasArrays (cells_at p rows) (input_types p.tensors) inputs
        → PortsCarry (net_under p delays) (stream p rows params inputs delays) m k ports
        → map (λ queue. sent_item p rows params delays (array_of inputs (module_at (net_under p delays) m)) queue k
        ports) (exits (net_under p delays) m)
        ≡ map (λ queue. stream p rows params inputs delays queue k) (exits (net_under p delays) m) }
    ensures carry { (p : PlainProgram) (delays : List ℕ) (items : ℕ → ℕ → ℤ) (m k : ℕ) (ports : List ℤ)
        → ports ≡ port_items (net_under p delays) items m k → PortsCarry (net_under p delays) items m k ports }
{
    staging_makes_a_net();
    networks_fit();
    queues_stand_in_order()
}

/// The queues to a computing module are as many as the reads of its tensor. The items of their streams are in the
/// ranges of what is read, as is what is wrapped to its types; values in range stay as they are.
pub fn ports_are_of_reads()
    ensures count { (p : PlainProgram) (delays : List ℕ) (m x lane : ℕ) → HasStreams p delays
        → m < length (net_under p delays).modules → module_at (net_under p delays) m ≡ Compute x lane
        → length (entrances (net_under p delays) m) ≡ length (port_types p x) }
    ensures streams { (p : PlainProgram) (delays : List ℕ) (rows : ℕ) (params : List ℤ) (inputs : List (List ℤ))
        (m x lane k : ℕ) → HasStreams p delays → HasArrays (cells_at p rows) (input_types p.tensors) inputs
        → m < length (net_under p delays).modules → module_at (net_under p delays) m ≡ Compute x lane
        → HasValues (port_types p x) (port_items (net_under p delays) (stream p rows params inputs delays) m k) }
    ensures range { (p : PlainProgram) (x : ℕ) (ports : List ℤ)
        → HasValues (port_types p x) (wrapped_ports p x ports) }
    ensures kept { (p : PlainProgram) (delays : List ℕ) (m x lane : ℕ) (ports : List ℤ) → HasStreams p delays
        → m < length (net_under p delays).modules → module_at (net_under p delays) m ≡ Compute x lane
        → HasValues (port_types p x) ports → wrapped_ports p x ports ≡ ports }
{
    staging_makes_a_net();
    networks_fit();
    queues_stand_in_order()
}

/// What a module of each kind sends in a firing into a queue from it: a source a cell of its array, a forwarding module
/// what its port holds, and a computing module what `cell_of` gives.
pub fn items_are_by_module()
    ensures source { (p : PlainProgram) (delays : List ℕ) (rows : ℕ) (params array : List ℤ) (queue k v : ℕ)
        (ports : List ℤ) → sender (net_under p delays) queue ≡ Source v
        → sent_item p rows params delays array queue k ports
        ≡ numbered array (cell_number (plan_of p delays) v (lane_of (receiver (net_under p delays) queue)) k) }
    ensures forward { (p : PlainProgram) (delays : List ℕ) (rows : ℕ) (params array : List ℤ)
        (queue k v lane tap : ℕ) (ports : List ℤ) → sender (net_under p delays) queue ≡ Forward v lane tap
        → sent_item p rows params delays array queue k ports ≡ slice_index_or ports 0 (pos 0) }
    ensures compute { (p : PlainProgram) (delays : List ℕ) (rows : ℕ) (params array : List ℤ) (queue k x lane : ℕ)
        (ports : List ℤ) (s : StagedTensor) → sender (net_under p delays) queue ≡ Compute x lane
        → slice_get (staged_tensors p) x ≡ Some s → sent_item p rows params delays array queue k ports
        ≡ sent_cell p rows params x s (wrapped_ports p x ports) (cell_number (plan_of p delays) x lane k) }
{}

/// The queues to a sink are those of the lanes of its output, in order, and carry its cells, which are the defined
/// array's; so its ports hold these lane by lane.
pub fn sinks_take_arrays()
    ensures count { (p : PlainProgram) (delays : List ℕ) (m v : ℕ) → HasStreams p delays
        → m < length (net_under p delays).modules → module_at (net_under p delays) m ≡ Sink v
        → length (entrances (net_under p delays) m) ≡ p.unroll }
    ensures lanes { (p : PlainProgram) (delays : List ℕ) (rows : ℕ) (params : List ℤ) (inputs : List (List ℤ))
        (m v lane k : ℕ) → HasStreams p delays → m < length (net_under p delays).modules
        → module_at (net_under p delays) m ≡ Sink v → lane < p.unroll
        → stream p rows params inputs delays (slice_index (entrances (net_under p delays) m) lane) k
        ≡ stage_cell p rows params inputs v (cell_number (plan_of p delays) v lane k) }
    ensures ports { (p : PlainProgram) (delays : List ℕ) (rows : ℕ) (params : List ℤ) (inputs : List (List ℤ))
        (m v k : ℕ) → HasStreams p delays → m < length (net_under p delays).modules
        → module_at (net_under p delays) m ≡ Sink v
        → port_items (net_under p delays) (stream p rows params inputs delays) m k
        ≡ listed (λ lane. stage_cell p rows params inputs v (cell_number (plan_of p delays) v lane k)) p.unroll }
    ensures array { (p : PlainProgram) (delays : List ℕ) (rows : ℕ) (params : List ℤ) (inputs : List (List ℤ))
        (m v : ℕ) → HasStreams p delays → m < length (net_under p delays).modules
        → module_at (net_under p delays) m ≡ Sink v
        → slice_index_or (defined_arrays p rows params inputs) (output_of p v) []
        ≡ listed (λ n. stage_cell p rows params inputs v (pos n)) (cells_at p rows) }
{
    staging_makes_a_net();
    networks_fit();
    queues_stand_in_order()
}

/// The lists of a module go as far as those that it takes give them: a list sent has an item for each firing, up to the
/// last that the module has and that each queue to it gives an item for, after as many as its lead; and what a sink
/// takes lane by lane goes up to the first item that isn't there.
pub fn lists_go_as_far()
    ensures length { (p : PlainProgram) (rows : ℕ) (params : List ℤ) (delays : List ℕ) (array : List ℤ) (firings : ℕ)
        (taken : ℕ → List ℤ) (queue : ℕ)
        → length (sent_list p rows params delays array firings taken queue)
        ≡ firings_given (net_under p delays) firings taken (sender_of (net_under p delays) queue) }
    ensures sent { (net : Net) (firings : ℕ) (taken : ℕ → List ℤ) (m n : ℕ)
        → (n ≤ firings_given net firings taken m) ↔ ((n ≤ firings_at net firings m)
        × ((j : ℕ) → j < length (entrances net m) → n ≤ length (taken (slice_index (entrances net m) j))
        + (queue_at net.queues (slice_index (entrances net m) j)).lead)) }
    ensures handed_length { (p : PlainProgram) (rows : ℕ) (delays : List ℕ) (firings : ℕ) (taken : ℕ → List ℤ)
        (m delay : ℕ) → length (handed_list p rows delays firings taken m delay)
        ≡ min (cells_at p rows) (items_given (net_under p delays) p.unroll firings taken m - delay) }
    ensures handed { (net : Net) (unroll firings : ℕ) (taken : ℕ → List ℤ) (m n : ℕ)
        → (n ≤ items_given net unroll firings taken m) ↔ ((n ≤ unroll * firings_at net firings m)
        × ((j : ℕ) → j < length (entrances net m) → n ≤ unroll * length (taken (slice_index (entrances net m) j))
        + (queue_at net.queues (slice_index (entrances net m) j)).port)) }
{}

/// Where more is taken, the list that is sent into a queue and the list that a sink hands on begin with what they were.
pub fn lists_go_on()
    ensures sent { (p : PlainProgram) (rows : ℕ) (params : List ℤ) (delays : List ℕ) (array : List ℤ) (firings : ℕ)
        (taken more : ℕ → List ℤ) (queue : ℕ)
        → AreLonger (entrances (net_under p delays) (sender_of (net_under p delays) queue)) taken more
        → IsPrefix (sent_list p rows params delays array firings taken queue)
        (sent_list p rows params delays array firings more queue) }
    ensures handed { (p : PlainProgram) (rows : ℕ) (delays : List ℕ) (firings : ℕ) (taken more : ℕ → List ℤ)
        (m v delay : ℕ) → HasStreams p delays → m < length (net_under p delays).modules
        → module_at (net_under p delays) m ≡ Sink v → AreLonger (entrances (net_under p delays) m) taken more
        → IsPrefix (handed_list p rows delays firings taken m delay)
        (handed_list p rows delays firings more m delay) }
{
    staging_makes_a_net();
    networks_fit();
    queues_stand_in_order()
}

/// The law of streams. Where from each queue a prefix was taken of what was sent into it, and each list sent is a
/// prefix of what the lists taken give: item i of a list sent is item i of the queue's stream, and what a sink hands on
/// as far as its lists give it is a prefix of the defined array of its output. They give all of it where the sink took
/// as many items of each lane as a module of age 0 sends in the whole run.
pub fn lists_are_streams()
    ensures sent { (p : PlainProgram) (delays : List ℕ) (rows : ℕ) (params : List ℤ) (inputs : List (List ℤ))
        (firings : ℕ) (taken sent : ℕ → List ℤ) (queue i : ℕ) → HasStreams p delays
        → HasArrays (cells_at p rows) (input_types p.tensors) inputs
        → AreSent p rows params inputs delays firings taken sent
        → queue < length (net_under p delays).queues → i < length (sent queue)
        → slice_index_or (sent queue) i (pos 0) ≡ stream p rows params inputs delays queue i }
    ensures handed { (p : PlainProgram) (delays : List ℕ) (rows : ℕ) (params : List ℤ) (inputs : List (List ℤ))
        (firings : ℕ) (taken sent : ℕ → List ℤ) (m v : ℕ) (handed : List ℤ) → HasStreams p delays
        → HasArrays (cells_at p rows) (input_types p.tensors) inputs
        → AreSent p rows params inputs delays firings taken sent
        → m < length (net_under p delays).modules → module_at (net_under p delays) m ≡ Sink v
        → IsPrefix handed (handed_list p rows delays firings taken m (slice_index delays v))
        → IsPrefix handed (slice_index_or (defined_arrays p rows params inputs) (output_of p v) []) }
    ensures whole { (p : PlainProgram) (delays : List ℕ) (rows firings : ℕ) (taken : ℕ → List ℤ) (m v : ℕ)
        → HasStreams p delays → m < length (net_under p delays).modules → module_at (net_under p delays) m ≡ Sink v
        → firings ≡ firings_for (cells_at p rows) (plan_of p delays)
        → ((lane : ℕ) → lane < p.unroll
        → firings ≤ length (taken (slice_index (entrances (net_under p delays) m) lane)))
        → length (handed_list p rows delays firings taken m (slice_index delays v)) ≡ cells_at p rows }
{
    staging_makes_a_net();
    networks_fit();
    queues_stand_in_order()
}
