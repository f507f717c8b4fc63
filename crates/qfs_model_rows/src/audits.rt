//! Runs that are audited.

ghost use Rattle.qfs_model_rows.specs.Audits.{AuditedWipe};

/// A server is emptied during a get, which reads around it; the audit misses its copy.
pub fn audited_wipe()
    ensures { AuditedWipe }
{}
