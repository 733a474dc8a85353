//! Clones are copies, as contracts of functions that do nothing. Another crate's proof calls one, or cites its lemma.

ghost use Rattle.std.specs.Prelude.{◌≡◌, ℕ, List, Bool, None};
ghost use Rattle.dp_model.specs.declared.env.PortSpec.{PortSpec};
ghost use Rattle.dp_model.specs.declared.instr.Instr.{Instr};
ghost use Rattle.dp_model.specs.Environments.{Environment, fault_of};
ghost use Rattle.dp_model.specs.Prefixes.{Route};
ghost use Rattle.dp_model.specs.Packets.{Packet};
ghost use Rattle.dp_model.specs.Machine.{Setting, World, State, Move, Step};
ghost use Rattle.dp_model.specs.Runs.{Nodes, Arrival, Receives, Observed, Run};
ghost use Rattle.dp_model.specs.Starts.{IsStart};
ghost use Rattle.dp_model.specs.Copies.{copy_of};
ghost use Rattle.dp_model.specs.CopyMachine.{Captures};
ghost use Rattle.dp_model.specs.Uses.{Stretch, Uses};
ghost use Rattle.dp_copies.specs.CopiedUses.{Shown};
ghost use Rattle.dp_copies.specs.Seen.{IsQueued, IsBeside};

/// Clones are copies: a whole run over shared buffers in which no node run is stuck has the captures, and the number of cuts, of the machine in which
/// each packet has its own bytes, given the same answers to allocation calls. No row, rule or certificate is involved. The environment is one that
/// `Env::new` accepts. `T` is the time of a record.
pub fn clones_are_copies<T>()
    ensures { (setting : Setting) (nodes : Nodes) (arrivals : List (Arrival T)) (w w' : World) (shown : Observed T) →
        fault_of setting.env ≡ None → IsStart setting.env w → Run setting nodes arrivals w shown w' →
        Captures setting.env setting.tables nodes arrivals shown.answers shown.captures w'.cuts }
{}

/// The machine of copies is deterministic: given the same records and the same answers to its allocation calls, it has one list of captures and one
/// number of cuts.
pub fn copies_are_deterministic<T>()
    ensures { (env : Environment) (tables : List (List Route)) (nodes : Nodes) (arrivals : List (Arrival T)) (answers : List Bool)
        (captures captures' : List (List (T × List ℕ))) (cuts cuts' : ℕ) →
        Captures env tables nodes arrivals answers captures cuts → Captures env tables nodes arrivals answers captures' cuts' →
        (captures ≡ captures') × (cuts ≡ cuts') }
{}

/// Two runs on the same records with the same answers to allocation calls have the same captures and the same number of cuts, whatever buffers were
/// taken and whatever these held.
pub fn buffers_are_not_seen<T>()
    ensures { (setting d : Setting) (nodes : Nodes) (arrivals : List (Arrival T)) (w w' v v' : World) (shown shown' : Observed T) →
        setting.env ≡ d.env → setting.tables ≡ d.tables → fault_of setting.env ≡ None → IsStart setting.env w → IsStart setting.env v →
        Run setting nodes arrivals w shown w' → Run d nodes arrivals v shown' v' → shown.answers ≡ shown'.answers →
        (shown.captures ≡ shown'.captures) × (w'.cuts ≡ v'.cuts) }
{}

/// No store, prepend or append is seen through another packet, nor are old bytes of a buffer: a packet in a ring, in a transmit list, or in a
/// register other than the one that an instruction writes has the same bytes and rooms before and after each step, and before and after a record is
/// received.
pub fn writes_are_not_seen()
    ensures steps { (setting : Setting) (program : List Instr) (label : ℕ) (s : State) (m : Move) (step : Step setting program label s m) (packet : Packet) →
        IsBeside step.instr s packet →
        copy_of setting.env.pools m.state.world.buffers packet ≡ copy_of setting.env.pools s.world.buffers packet }
    ensures receives { (setting : Setting) (program : List Instr) (port : ℕ) (spec : PortSpec) (bytes : List ℕ) (w w' : World) (answers : List Bool)
        (received : Receives setting program port spec bytes w answers w') (packet : Packet) →
        IsQueued w packet →
        copy_of setting.env.pools received.reception.buffers packet ≡ copy_of setting.env.pools w.buffers packet }
{}

/// Clones are copies in uses in stretches, between which the routes of the tables change: in each stretch the machine of copies, with the routes of
/// that stretch, has the captures that the stretch showed, given the same answers to allocation calls, and the same number of cuts in all.
pub fn uses_are_copied<T>()
    ensures { (setting : Setting) (nodes : Nodes) (stretches : List (Stretch T)) (w w' : World) →
        fault_of setting.env ≡ None → IsStart setting.env w → Uses setting nodes stretches w w' → Shown setting.env nodes stretches w'.cuts }
{}
