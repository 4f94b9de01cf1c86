//! The places of what is counted by name.
ghost use Rattle.std.specs.Prelude.{◌≡◌, ◌<◌};
ghost use Rattle.run_statistics.specs.Places.{place_of_answer, place_of_kind};

use sn_base::Answer;
use sn_msg::Body;

/// An answer's place: first those of what was done, and then those that refuse.
pub fn place_of_answer(answer: &Answer) -> usize
    ensures place { result ≡ place_of_answer answer.now }
    ensures small { result < 32 }
{
    match answer {
        Answer::Retired => 0,
        Answer::Missed => 1,
        Answer::Evicted => 2,
        Answer::PutBegun => 3,
        Answer::Edged(_) => 4,
        Answer::Hopped => 5,
        Answer::LostInDead => 6,
        Answer::Delivered => 7,
        Answer::Lost => 8,
        Answer::Killed => 9,
        Answer::Reported(_) => 10,
        Answer::Validated(_) => 11,
        Answer::Recovered(_) => 12,
        Answer::Given => 13,
        Answer::Waits => 14,
        Answer::NeedsEvict => 15,
        Answer::LogFull => 16,
        Answer::NetFull => 17,
        Answer::Ended => 18,
        Answer::NotCached => 19,
        Answer::PutOpen => 20,
        Answer::MissOpen => 21,
        Answer::CheckpointsFull => 22,
        Answer::Arrived => 23,
        Answer::NotArrived => 24,
        Answer::NoMessage => 25,
        Answer::Held => 26,
        Answer::HomeBusy => 27,
        Answer::AlreadyDead => 28,
        Answer::NotReady(_) => 29,
        Answer::CutOff(_, _) => 30,
        Answer::NoInput => 31,
    }
}

/// The place of a message's kind, in the order of the kinds.
pub fn place_of_kind(body: &Body) -> usize
    ensures place { result ≡ place_of_kind body.now }
    ensures small { result < 17 }
{
    match body {
        Body::GetS => 0,
        Body::GetM => 1,
        Body::FwdGetS(_) => 2,
        Body::FwdGetM(_, _) => 3,
        Body::Inv(_) => 4,
        Body::DataS(_) => 5,
        Body::DataM(_, _) => 6,
        Body::DataE(_) => 7,
        Body::UpgOk(_) => 8,
        Body::InvAck => 9,
        Body::Unblock(_) => 10,
        Body::PutReq => 11,
        Body::PutGo => 12,
        Body::PutData(_) => 13,
        Body::PutDone => 14,
        Body::Ready(_) => 15,
        Body::Advance(_) => 16,
    }
}
