ghost use Rattle.std.specs.Prelude.{◌≡◌, ◌<◌, ℕ, ℤ, List, length, slice_index, IfErr, OnOk};
ghost use Rattle.net_ir.specs.Nets.{Net, entrances, exits};
ghost use Rattle.net_cycles.specs.Between.{fired_once};
ghost use Rattle.net_cycles.specs.Streams.{port_values, sent_values};

use net_ir::Network;

/// What the modules of a network compute in their firings. `E` is their environment, as the files that a source reads
/// and a sink writes; it is lent for each firing.
pub trait Datapath<E> {
    /// What can stop a firing.
    type Fault;

    /// The streams of a network that agree with all that was met so far, as with what was read of the inputs.
    ghost agrees: { Self → E → Net → (ℕ → ℕ → ℤ) → Type 0 };

    /// What holds once the modules have done so many firings, as where a source stands in its input and what a sink has
    /// written, for each of the streams that agree.
    ghost ready: { Self → E → Net → List ℕ → Type 0 };

    /// What a firing of a module relies on where the modules have done so many firings.
    ghost relies: { Self → Net → List ℕ → ℕ → Type 0 };

    /// What a run of firings does to both, as which files it touches: it leads from the first two to the last two.
    ghost onward: { Self → E → Self → E → Type 0 };

    /// What holds where a fault has stopped a firing of a module, before which the modules had done so many firings:
    /// the first two are those of some time before it, the next two those after it.
    ghost stopped: { Self → E → Self → E → Net → List ℕ → ℕ → Self.Fault → Type 0 };

    /// Does the next firing of a module: from the values at its ports, by port, it gives the values that are sent, in
    /// queue order. A port whose lead isn't over has 0. `fired` is how many firings each module has done.
    fn fire(
        &mut self,
        env: &mut E,
        net: &Network,
        module: u32,
        fired: &[u64],
        ports: &[i128],
        sends: &mut [i128],
    ) -> Result<(), Self::Fault>
        requires known { «module» < length net.now.modules }
        requires whole { length fired.now ≡ length net.now.modules }
        requires ports { length ports.now ≡ length (entrances net.now «module») }
        requires sends { length sends.old ≡ length (exits net.now «module») }
        requires ready { ready self.old env.old net.now fired.now }
        requires relies { relies self.old net.now fired.now «module» }
        requires found { (stream : ℕ → ℕ → ℤ) → agrees self.old env.old net.now stream
            → ports.now ≡ port_values net.now stream «module» (slice_index fired.now «module») }

        ensures agrees { (stream : ℕ → ℕ → ℤ)
            → agrees self.new env.new net.now stream → agrees self.old env.old net.now stream }
        ensures sent { OnOk result ((stream : ℕ → ℕ → ℤ) → agrees self.new env.new net.now stream
            → sends.new ≡ sent_values net.now stream «module» (slice_index fired.now «module»)) }
        ensures ready { OnOk result (ready self.new env.new net.now (fired_once fired.now «module»)) }
        ensures relies { (later : List ℕ) (m : ℕ)
            → relies self.old net.now later m → relies self.new net.now later m }
        ensures onward { onward self.old env.old self.new env.new }
        ensures stopped { IfErr result (λ fault.
            stopped self.old env.old self.new env.new net.now fired.now «module» fault) };

    /// No firing leads nowhere.
    ghost stays: { (d : Self) (x : E) → onward d x d x };

    /// One run of firings after another is a run of firings.
    ghost follows: { (a b c : Self) (x y z : E) → onward a x b y → onward b y c z → onward a x c z };

    /// A fault is told from any earlier time.
    ghost since: { (a b c : Self) (x y z : E) (net : Net) (fired : List ℕ) (m : ℕ) (fault : Self.Fault)
        → onward a x b y → stopped b y c z net fired m fault → stopped a x c z net fired m fault };
}
