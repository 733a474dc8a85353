//! Laws of accepted programs, as contracts of functions that do nothing.

ghost use Rattle.std.specs.Prelude.{◌≡◌, ◌+◌, ◌*◌, ◌<◌, ◌≤◌, ℕ, List, [], ◌∷◌, ◌++◌, Bool, Some, length, slice_get};
ghost use Rattle.std.specs.List.{AllByRecursion};
ghost use Rattle.dp_model.specs.Laws.{Begins, IsSound, Ready, AreChecked};
ghost use Rattle.dp_model.specs.Limits.{max_ring_runs};
ghost use Rattle.dp_model.specs.Machine.{Setting, World, live, jump_budget};
ghost use Rattle.dp_model.specs.Meaning.{TablesFit};
ghost use Rattle.dp_model.specs.Packets.{Packet};
ghost use Rattle.dp_model.specs.Rules.{Question, IsCertified};
ghost use Rattle.dp_model.specs.Runs.{Nodes, Outcome, Turn, Arrival, Run, between, with_empty_rings};
ghost use Rattle.dp_model.specs.Safety.{BeginsWell, IsSafeRun, IsAtRest, IsPipeline, AreShort, IsSafeTurn, CanArrive, AreSafe, KeepsSafe, KeepsRunsSafe};
ghost use Rattle.dp_model.specs.Starts.{IsStart};
ghost use Rattle.dp_model.specs.Uses.{Stretch, Uses, AllFit, KeepsUsesSafe, answers_of, joined_stretch};
ghost use Rattle.dp_model.specs.declared.env.PortSpec.{PortSpec};

/// Accepted programs are never stuck, for every environment, program, certificate, entry, set of tables and pattern of refused calls. A node run
/// begins in the row of its entry. At each label that it reaches the label's row holds, each packet in a ring satisfies what the ring declares, the
/// world is well formed, and there is a step. It takes at most 257 times as many steps as its program has instructions, and can end, by its program
/// or by a cut. The same holds for all node runs of a turn: there is a turn for each record, the pattern and the free buffers decide its outcome, and
/// its allocation calls are counted and bounded. The same holds for whole runs from the start on. `T` is the time of a record.
pub fn accepted_programs_are_safe<T>()
    ensures node_runs { (setting : Setting) (question : Question) (packet : Packet) (number : ℕ) (w : World) →
        IsCertified question → BeginsWell setting question packet number w → IsSafeRun setting question packet number w }
    ensures turns { (setting : Setting) (nodes : Nodes) (port : ℕ) (spec : PortSpec) (bytes : List ℕ) (w : World) →
        IsPipeline setting nodes → slice_get setting.env.ports port ≡ Some spec → IsAtRest setting w → AllByRecursion (λ x. x < 256) bytes →
        IsSafeTurn setting nodes port spec bytes w }
    ensures calls { (setting : Setting) (nodes : Nodes) (most port : ℕ) (bytes : List ℕ) (w w' : World) (outcome : Outcome) (runs : ℕ) (answers : List Bool) →
        IsPipeline setting nodes → AreShort most nodes.ports → AreShort most nodes.rings → IsAtRest setting w →
        Turn setting nodes port bytes w outcome runs answers w' →
        (w'.calls ≡ w.calls + length answers) × (length answers ≤ 1 + (max_ring_runs + 1) * ((jump_budget + 1) * most)) }
    ensures runs { (setting : Setting) (nodes : Nodes) (arrivals : List (Arrival T)) (w : World) →
        TablesFit setting → IsPipeline setting nodes → IsStart setting.env w → AllByRecursion (CanArrive setting) arrivals →
        AreSafe setting nodes arrivals w }
{}

/// A node run of an accepted program that begins as its entry says is never stuck, each row holds where the run reaches it, and at the end each
/// packet in a ring satisfies what the ring declares.
pub fn accepted_programs_are_sound()
    ensures { (setting : Setting) (question : Question) (packet : Packet) (number : ℕ) (w : World) →
        IsCertified question → Begins setting question packet number w → IsSound setting question packet number w }
{}

/// A turn of checked nodes leaves the world ready for the next, whatever its outcome.
pub fn turns_stay_ready()
    ensures { (setting : Setting) (nodes : Nodes) (port : ℕ) (bytes : List ℕ) (w w' : World) (outcome : Outcome) (runs : ℕ) (answers : List Bool) →
        AreChecked setting nodes → Ready setting w → Turn setting nodes port bytes w outcome runs answers w' → Ready setting w' }
{}

/// The node runs of every pipeline are safe, whatever records come: those of each turn, and the one on the packet that waits next. Each goes
/// from instruction to instruction, and after every record the world is at rest again. An engine cites this form.
pub fn pipelines_keep_safe()
    ensures { (setting : Setting) (nodes : Nodes) → IsPipeline setting nodes → KeepsSafe setting nodes }
{}

/// The same for whole runs from the start on. `T` is the time of a record.
pub fn runs_keep_safe<T>()
    ensures { (setting : Setting) (nodes : Nodes) (arrivals : List (Arrival T)) (w : World) →
        TablesFit setting → IsPipeline setting nodes → IsStart setting.env w → KeepsRunsSafe setting nodes arrivals w }
{}

/// The same for uses in stretches, between which the routes of the tables change: every node run is safe with the routes of its moment, the world
/// is at rest after each stretch, and where what waits in rings is freed nothing is live. `T` is the time of a record.
pub fn uses_keep_safe<T>()
    ensures safe { (setting : Setting) (nodes : Nodes) (stretches : List (Stretch T)) (w : World) →
        TablesFit setting → IsPipeline setting nodes → AllFit setting stretches → IsStart setting.env w → KeepsUsesSafe setting nodes stretches w }
    ensures nothing { (setting : Setting) (nodes : Nodes) (stretches : List (Stretch T)) (w w' : World) →
        IsStart setting.env w → Uses setting nodes stretches w w' → live (between (with_empty_rings w')) ≡ [] }
    ensures calls { (setting : Setting) (nodes : Nodes) (stretches : List (Stretch T)) (w w' : World) →
        Uses setting nodes stretches w w' → w'.calls ≡ w.calls + length (answers_of stretches) }
{}

/// Two runs, one after the other, are one run, and two stretches with the same tables are one stretch; a use of one stretch is a run. So a use in
/// which no route changes is a run. `T` is the time of a record.
pub fn uses_join<T>()
    ensures stretches { (setting : Setting) (nodes : Nodes) (later : List (Stretch T)) (b a : Stretch T) (earlier : List (Stretch T)) (w w' : World) →
        TablesFit setting → IsPipeline setting nodes → AllFit setting (later ++ (b ∷ a ∷ earlier)) → IsStart setting.env w → b.tables ≡ a.tables →
        Uses setting nodes (later ++ (b ∷ a ∷ earlier)) w w' → Uses setting nodes (later ++ (joined_stretch a b ∷ earlier)) w w' }
    ensures one { (setting : Setting) (nodes : Nodes) (s : Stretch T) (w w' : World) → s.tables ≡ setting.tables →
        Uses setting nodes (s ∷ []) w w' → Run setting nodes s.arrivals w s.shown w' }
{}
