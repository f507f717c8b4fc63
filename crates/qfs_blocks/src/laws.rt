//! What the changes of the tables mean: where the slots and condemned copies of the metaserver's
//! state are those of the tables, each is the definition's change of that state. Each function
//! here does nothing, and its contract is a law.
ghost use Rattle.std.specs.Prelude.{◌≡◌, ◌≤◌, ◌+◌, ℕ, nat_lt};
ghost use Rattle.qfs_base.specs.declared.change.Change.TheVariants.{CondemnStray, ConfirmSlot, EmptySlot, EndLease, FailGrant, GiveLease, GiveUp, GrantSlot, MarkOrdered, ServerUp, TakeCondemned};
ghost use Rattle.qfs_base.specs.declared.chunk.BlockId.{BlockId};
ghost use Rattle.qfs_base.specs.declared.chunk.ChunkKey.{ChunkKey};
ghost use Rattle.qfs_base.specs.declared.image.CondemnedEntry.{CondemnedEntry};
ghost use Rattle.qfs_base.specs.declared.image.MetaImage.{MetaImage};
ghost use Rattle.qfs_base.specs.Table.{Each};
ghost use Rattle.qfs_model_meta.specs.Apply.{apply};
ghost use Rattle.qfs_model_meta.specs.Leases.{end_lease, give_lease};
ghost use Rattle.qfs_model_meta.specs.Servers.{change_server, server_at, server_up};
ghost use Rattle.qfs_model_meta.specs.Slots.{granted_slot, slot_at, with_slot};
ghost use Rattle.qfs_blocks.specs.BlockTables.{BlockTables, grant_confirmed, grant_failed, grant_given_up, is_known, slot_emptied, unknown_condemned};
ghost use Rattle.qfs_blocks.specs.Entries.{mark_entry, sweep_entry};
ghost use Rattle.qfs_blocks.specs.ImageLaws.{IsNextLease, with_blocks};
ghost use Rattle.qfs_blocks.specs.LeaseLaws.{entries_if_risen};

/// The changes that condemn copies, where the next lease gets a number above those of the live
/// ones.
pub fn condemning_changes()
    ensures given_up { (m : MetaImage) (next : ℕ) (t : BlockTables) (block : BlockId) (slot : ℕ)
        → IsNextLease next m.leases
        → with_blocks (grant_given_up m.servers next block slot t
        (slot_at t.slots block slot).grant) m
        ≡ apply (with_blocks t m) (GiveUp block slot) }
    ensures failed { (m : MetaImage) (next : ℕ) (t : BlockTables) (block : BlockId) (slot : ℕ)
        → IsNextLease next m.leases
        → with_blocks (grant_failed m.servers next block slot t
        (slot_at t.slots block slot).grant) m
        ≡ apply (with_blocks t m) (FailGrant block slot) }
    ensures confirmed { (m : MetaImage) (next : ℕ) (t : BlockTables) (block : BlockId) (slot : ℕ)
        → IsNextLease next m.leases
        → with_blocks (grant_confirmed m.servers next block slot t (slot_at t.slots block slot)) m
        ≡ apply (with_blocks t m) (ConfirmSlot block slot) }
    ensures emptied { (m : MetaImage) (next : ℕ) (t : BlockTables) (block : BlockId) (slot : ℕ)
        → IsNextLease next m.leases
        → with_blocks (slot_emptied m.servers next block slot t (slot_at t.slots block slot)) m
        ≡ apply (with_blocks t m) (EmptySlot block slot) }
{}

/// The changes of one condemned copy.
pub fn changes_of_condemned_copies()
    ensures marked { (m : MetaImage) (t : BlockTables) (number : ℕ)
        → with_blocks (record t { condemned = mark_entry number t.condemned }) m
        ≡ apply (with_blocks t m) (MarkOrdered number) }
    ensures swept { (m : MetaImage) (t : BlockTables) (number : ℕ)
        → with_blocks (record t { condemned = sweep_entry number t.condemned }) m
        ≡ apply (with_blocks t m) (TakeCondemned number) }
{}

/// The changes of leases, of which none blocks a copy that was condemned before it was given, and
/// none one that ended.
pub fn changes_of_leases()
    ensures given { (m : MetaImage) (t : BlockTables) (actor file until : ℕ)
        → Each (λ (entry : CondemnedEntry). entry.below ≤ m.next_lease) t.condemned
        → with_blocks t (record m {
          leases = give_lease m.next_lease actor file until m.leases;
          next_lease = m.next_lease + 1;
        }) ≡ apply (with_blocks t m) (GiveLease actor file until) }
    ensures ended { (m : MetaImage) (t : BlockTables) (lease : ℕ)
        → with_blocks t (record m { leases = end_lease lease m.leases })
        ≡ apply (with_blocks t m) (EndLease lease) }
{}

/// The changes as a server came up: where its life rose, the condemned copies on it go, and what
/// it was found to store is condemned unless it is known.
pub fn changes_of_servers()
    ensures up { (m : MetaImage) (t : BlockTables) (server life : ℕ)
        → with_blocks (record t {
          condemned = entries_if_risen server t.condemned
              (nat_lt (server_at m.servers server).life life);
        })
        (record m { servers = change_server (server_up life) m.servers server })
        ≡ apply (with_blocks t m) (ServerUp server life) }
    ensures stray { (m : MetaImage) (next : ℕ) (t : BlockTables) (server life : ℕ)
        (key : ChunkKey) → IsNextLease next m.leases
        → with_blocks (unknown_condemned m.servers next key.block key.slot
        (record { server = server; life = life; version = key.version }) t
        (is_known key.block key.slot
        (record { server = server; life = life; version = key.version }) t)) m
        ≡ apply (with_blocks t m) (CondemnStray server life key) }
{}

/// A slot gets a grant, in the known life of its server.
pub fn change_of_grants()
    ensures { (m : MetaImage) (t : BlockTables) (block : BlockId) (slot server : ℕ)
        (actor lease spare : ℕ)
        → with_blocks (record t {
          slots = with_slot block slot (granted_slot server (server_at m.servers server).life
              actor lease (slot_at t.slots block slot)) t.slots;
          spare_slots = spare;
        }) m ≡ apply (with_blocks t m) (GrantSlot block slot server actor lease) }
{}
