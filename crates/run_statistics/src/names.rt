//! The names of what is counted by name.
ghost use Rattle.std.specs.Prelude.{◌≡◌, ◌<◌, ◌≤◌, [], length, slice_index_or};
ghost use Rattle.run_statistics.specs.Lines.{answer_names, kind_names, lead_names};

/// An answer, by its place: those that refuse are told by a word more.
pub fn answer_name(place: usize) -> &'static str
    requires { place < 32 }
    ensures name { result.now ≡ slice_index_or answer_names place [] }
    ensures short { length result.now ≤ 32 }
{
    match place {
        0 => "retired",
        1 => "missed",
        2 => "evicted",
        3 => "putbegun",
        4 => "edged",
        5 => "hopped",
        6 => "lostindead",
        7 => "delivered",
        8 => "lost",
        9 => "killed",
        10 => "reported",
        11 => "validated",
        12 => "recovered",
        13 => "given",
        14 => "refused_waits",
        15 => "refused_needsevict",
        16 => "refused_logfull",
        17 => "refused_netfull",
        18 => "refused_ended",
        19 => "refused_notcached",
        20 => "refused_putopen",
        21 => "refused_missopen",
        22 => "refused_checkpointsfull",
        23 => "refused_arrived",
        24 => "refused_notarrived",
        25 => "refused_nomessage",
        26 => "refused_held",
        27 => "refused_homebusy",
        28 => "refused_alreadydead",
        29 => "refused_notready",
        30 => "refused_cutoff",
        31 => "refused_noinput",
        _ => unreachable!(),
    }
}

/// A kind of message, by its place.
pub fn kind_name(place: usize) -> &'static str
    requires { place < 17 }
    ensures name { result.now ≡ slice_index_or kind_names place [] }
    ensures short { length result.now ≤ 32 }
{
    match place {
        0 => "sent_gets",
        1 => "sent_getm",
        2 => "sent_fwdgets",
        3 => "sent_fwdgetm",
        4 => "sent_inv",
        5 => "sent_datas",
        6 => "sent_datam",
        7 => "sent_datae",
        8 => "sent_upgok",
        9 => "sent_invack",
        10 => "sent_unblock",
        11 => "sent_putreq",
        12 => "sent_putgo",
        13 => "sent_putdata",
        14 => "sent_putdone",
        15 => "sent_ready",
        16 => "sent_advance",
        _ => unreachable!(),
    }
}

/// What led to a recovery, by its place.
pub fn lead_name(place: usize) -> &'static str
    requires { place < 3 }
    ensures name { result.now ≡ slice_index_or lead_names place [] }
    ensures short { length result.now ≤ 32 }
{
    match place {
        0 => "recoveries_by_loss",
        1 => "recoveries_by_switch",
        2 => "recoveries_by_wait",
        _ => unreachable!(),
    }
}
