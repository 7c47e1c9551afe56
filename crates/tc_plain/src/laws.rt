//! The laws of every user's cache.
ghost use Rattle.tc_plain.specs.Laws.{AdvancesOnce, ActsAdvanced, LeavesAdvanced};
ghost use Rattle.tc_plain.specs.Freshness.{IsFresh};
ghost use Rattle.tc_plain.specs.Soundness.{StaysSound, HitDropsNothing};

/// Proves that advancing twice is advancing to the later moment, that each command first advances
/// the cache, and that it leaves the cache advanced to its moment.
pub fn advancing()
    ensures twice { AdvancesOnce }
    ensures first { ActsAdvanced }
    ensures left { LeavesAdvanced }
{}

/// Proves that each hit is what the commands before it last left under its key.
pub fn freshness()
    ensures { IsFresh }
{}

/// Proves that every command keeps a sound cache sound (`IsSound`), and that a hit drops nothing.
pub fn soundness()
    ensures stays { StaysSound }
    ensures hits { HitDropsNothing }
{}
