//! Laws of the definitions themselves, as contracts of functions that do nothing.

ghost use Rattle.std.specs.Prelude.{◌≡◌, ◌↔◌, ◌⊎◌, ℕ, ◌+◌, ◌*◌, ◌%◌, ◌^◌, ◌<◌, ◌≤◌, Bool, true, List, [], ◌∷◌, length, Option, Some, None, slice_index_or};
ghost use Rattle.dp_model.specs.Arithmetic.{all_ones, big_endian, spelled};
ghost use Rattle.dp_model.specs.Buffers.{Number, Buffers, bytes_of};
ghost use Rattle.dp_model.specs.Environments.{Environment, count_at, fault_of};
ghost use Rattle.dp_model.specs.Limits.{max_buffers, max_ring_runs};
ghost use Rattle.dp_model.specs.Machine.{Setting, State, World, At, Move, Acts, Step, live, without_packet, without_packets, jump_budget};
ghost use Rattle.dp_model.specs.Needs.{label_of};
ghost use Rattle.dp_model.specs.Laws.{AreChecked};
ghost use Rattle.dp_model.specs.Meaning.{TablesFit};
ghost use Rattle.dp_model.specs.Packets.{Segment, Packet, refs, is_free, available};
ghost use Rattle.dp_model.specs.Packets.{AreOwned, IsWellFormed};
ghost use Rattle.dp_model.specs.Packets.{stored, loaded};
ghost use Rattle.dp_model.specs.Prefixes.{Route, IsTable, LooksUp, hop_for};
ghost use Rattle.dp_model.specs.Runs.{StepsTo, first_state, NodeRun, max_steps, ConsumedAtMost, Receives, Serves, Nodes, Outcome, Turn, Arrival};
ghost use Rattle.dp_model.specs.Runs.{Observed, WholeRun, between, with_empty_outboxes, with_empty_rings, of_port, interleaved};
ghost use Rattle.dp_model.specs.Safety.{ArePackets, IsAtRest, Beginning, IsOfRecord, IsServed, AreShort, AreProgramsOf, max_steps_of};
ghost use Rattle.dp_model.specs.Starts.{IsStart};
ghost use Rattle.dp_model.specs.declared.env.PoolSpec.{PoolSpec};
ghost use Rattle.dp_model.specs.declared.instr.Instr.{Instr};

/// Worlds stay well formed: at the start, at each step of any program, accepted or not, and at the drains. Packets keep 1 to 64 segments. A buffer
/// never has more references than 16 bits can count.
pub fn worlds_stay_well_formed()
    ensures steps { (setting : Setting) (program : List Instr) (label : ℕ) (s : State) (m : Move) →
        IsWellFormed setting.env.pools s.world.buffers (live s) → Step setting program label s m →
        IsWellFormed setting.env.pools m.state.world.buffers (live m.state) }
    ensures packets { (setting : Setting) (program : List Instr) (label : ℕ) (s : State) (m : Move) →
        ArePackets s → Step setting program label s m → ArePackets m.state }
    ensures drains { (setting : Setting) (w : World) → IsAtRest setting w → IsAtRest setting (with_empty_outboxes w) }
    ensures starts { (setting : Setting) (w : World) → TablesFit setting → IsStart setting.env w → IsAtRest setting w }
    ensures few { (env : Environment) (segments : List Segment) (b : Number) →
        fault_of env ≡ None → AreOwned env.pools segments → refs segments b ≤ max_buffers }
{}

/// The two definitions of the longest prefix agree: the deepest route that matches has the hop that the search depth by depth finds.
pub fn longest_prefixes_agree()
    ensures { (routes : List Route) (ip : ℕ) (answer : Option ℕ) → IsTable routes →
        (LooksUp routes ip answer) ↔ (answer ≡ hop_for routes ip) }
{}

/// Words on numbers mean what they say: `all_ones` is the least 2^k - 1 that is at least a number, a number's bytes spell its low part, and a load
/// returns what was stored.
pub fn numbers_are_as_called()
    ensures ones { (n : ℕ) → (k : ℕ) × (all_ones n + 1 ≡ 2 ^ k) }
    ensures enough { (n : ℕ) → n ≤ all_ones n }
    ensures least { (n j : ℕ) → n + 1 ≤ 2 ^ j → all_ones n + 1 ≤ 2 ^ j }
    ensures spelling { (w n : ℕ) → spelled (big_endian w n) ≡ n % 256 ^ w }
    ensures stores { (offset w n : ℕ) (s : Segment) (rest : Packet) (buffers : Buffers) → 1 ≤ w → offset + w ≤ s.len →
        s.offset + s.len ≤ length (bytes_of buffers s.buffer) → loaded offset w (s ∷ rest) (stored offset w n (s ∷ rest) buffers) ≡ n % 256 ^ w }
{}

/// Two definitions of each part of a run agree: rounds give each port the records of its input in order; rings are served until none has a packet, or
/// until the limit; receiving a record and running its node can be one step or two.
pub fn runs_are_as_they_read<T>()
    ensures rounds { (port : ℕ) (inputs : List (List (T × List ℕ))) → of_port port (interleaved inputs) ≡ slice_index_or inputs port [] }
    ensures serves { (setting : Setting) (programs : List (List Instr)) (n : ℕ) (w : World) (answers : List Bool) (runs : ℕ) (w' : World) →
        Serves setting programs n w answers runs w' → IsServed setting programs n w runs w' }
    ensures receives { (setting : Setting) (nodes : Nodes) (port : ℕ) (bytes : List ℕ) (w w' : World) (b : Beginning) (answers : List Bool) →
        (r : IsOfRecord setting nodes port bytes w b) → NodeRun setting b.program b.packet b.number b.world answers w' →
        Receives setting r.program port r.spec bytes w (true ∷ answers) w' }
{}

/// Whole runs end as they should, for every list of programs, accepted or not: from a start on, no packet is left in a ring or a transmit list, each
/// pool has all its buffers free, and the allocation calls are those that the run reports. What is left in the rings is counted for each ring.
pub fn whole_runs_end_with_whole_pools<T>()
    ensures nothing { (setting : Setting) (nodes : Nodes) (arrivals : List (Arrival T)) (w w' : World) (shown : Observed T) (left : List ℕ) →
        IsStart setting.env w → WholeRun setting nodes arrivals w shown left w' → live (between w') ≡ [] }
    ensures free { (pools : List PoolSpec) (w : World) (pool : ℕ) (b : Number) → live (between w) ≡ [] →
        (is_free (live (between w)) b ≡ true) × (available pools (live (between w)) pool ≡ count_at pools pool) }
    ensures rings { (setting : Setting) (nodes : Nodes) (arrivals : List (Arrival T)) (w w' : World) (shown : Observed T) (left : List ℕ) →
        TablesFit setting → AreChecked setting nodes → IsStart setting.env w → WholeRun setting nodes arrivals w shown left w'
        → length left ≡ length setting.env.rings }
    ensures calls { (setting : Setting) (nodes : Nodes) (arrivals : List (Arrival T)) (w w' : World) (shown : Observed T) (left : List ℕ) →
        IsStart setting.env w → WholeRun setting nodes arrivals w shown left w' → w'.calls ≡ length shown.answers }
    ensures rests { (setting : Setting) (w : World) → IsAtRest setting w → IsAtRest setting (with_empty_rings w) }
{}

/// The budget of backward jumps works as documented, for every program, accepted or not. After an instruction comes the next label, or the label that
/// it names: so only a jump that is taken leads backward. A cut frees register by register, p0 first. A node run takes at most 256 backward jumps,
/// and at most 257 times as many steps as its program has instructions; only its last step can cut it. A turn has at most 33 node runs, and takes at
/// most 257 times as many steps as the programs that ran have instructions.
pub fn budgets_are_as_they_read()
    ensures jumps { (setting : Setting) (label to : ℕ) (s : State) (i : Instr) (m : Move) → Acts setting label s i m → m.next ≡ At to →
        (to ≡ label + 1) ⊎ (label_of i ≡ Some to) }
    ensures order { (s : State) → length s.packets ≡ 8 →
        without_packets s ≡ without_packet 7 (without_packet 6 (without_packet 5 (without_packet 4
        (without_packet 3 (without_packet 2 (without_packet 1 (without_packet 0 s))))))) }
    ensures taken { (setting : Setting) (program : List Instr) (packet : Packet) (number n label : ℕ) (w : World) (answers : List Bool) (s : State) →
        StepsTo setting program n 0 (first_state packet number w) answers (At label) s →
        (s.jumps ≤ jump_budget) × (s.world.steps ≡ w.steps + n) × (s.world.cuts ≡ w.cuts) }
    ensures node_runs { (setting : Setting) (program : List Instr) (packet : Packet) (number : ℕ) (w w' : World) (answers : List Bool) →
        NodeRun setting program packet number w answers w' → ConsumedAtMost w w' (max_steps program) 1 }
    ensures turns { (setting : Setting) (nodes : Nodes) (port : ℕ) (bytes : List ℕ) (w w' : World) (outcome : Outcome) (runs : ℕ) (answers : List Bool) →
        (t : Turn setting nodes port bytes w outcome runs answers w') →
        (runs ≤ max_ring_runs + 1) × (ran : List (List Instr)) × AreProgramsOf t ran × ConsumedAtMost w w' (max_steps_of ran) runs }
    ensures longest { (setting : Setting) (nodes : Nodes) (port : ℕ) (bytes : List ℕ) (w w' : World) (outcome : Outcome) (runs : ℕ) (answers : List Bool)
        (most : ℕ)
        (ran : List (List Instr)) (t : Turn setting nodes port bytes w outcome runs answers w') → AreProgramsOf t ran → AreShort most nodes.ports →
        AreShort most nodes.rings → max_steps_of ran ≤ runs * ((jump_budget + 1) * most) }
{}
