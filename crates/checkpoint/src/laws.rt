// Laws about the bytes of a body.
ghost use Rattle.std.specs.Prelude.{◌≡◌, ◌<◌, ℕ, List, [], Some, slice_index, true};
ghost use Rattle.office_snapshot.specs.Snapshots.{SnapshotRecord};
ghost use Rattle.checkpoint.specs.Bodies.{body_format, Spells};

/// States that a snapshot is read back from its bytes, that nothing else is read as a snapshot, and that no bytes spell
/// two snapshots.
pub fn each_body_reads_back()
    ensures again { (snapshot : SnapshotRecord) → body_format.has snapshot ≡ true
        → body_format.front (body_format.written snapshot) ≡ Some (snapshot, []) }
    ensures only { (bytes : List ℕ) (snapshot : SnapshotRecord) → ((i : ℕ) → slice_index bytes i < 256)
        → body_format.front bytes ≡ Some (snapshot, [])
        → (bytes ≡ body_format.written snapshot) × (body_format.has snapshot ≡ true) }
    ensures one { (bytes : List ℕ) (a b : SnapshotRecord) → Spells bytes a → Spells bytes b → a ≡ b }
{}
