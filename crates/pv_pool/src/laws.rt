//! The laws of pools, each as the contract of a function that does nothing.

ghost use Rattle.pv_pool.specs.Laws.{NamesApart};

/// No member that a pool names has a receiver symbol as its symbol, since no Utf8 text has the byte
/// 0xFF (JVMS 4.4.7).
pub fn law_names()
    ensures { NamesApart }
{}
