//! Theorems about the pipe, the ticks and the seats of a pair.
ghost use Rattle.std.specs.Prelude.{◌≡◌, ◌+◌, ◌++◌, ℕ, List, [], ◌∷◌, map, length, true, Option};
ghost use Rattle.std.specs.List.{fold};
ghost use Rattle.atomic_table.specs.Seated.{TableId};
ghost use Rattle.rtrb.specs.Ring.{IsPair, received, sent};
ghost use Rattle.tb_edge.specs.Ends.{ClockView};
ghost use Rattle.tb_edge.specs.Faults.{Rose};
ghost use Rattle.tb_lock.specs.Rights.{In, Out as Outs, AreAmong, all_rights, has, united, without, ticker_rights};
ghost use Rattle.tb_lock.specs.Seats.{SeatView};
ghost use Rattle.tb_run.specs.declared.ends.WorkEnd.{WorkEnd};
ghost use Rattle.tb_run.specs.Parting.{CanPart};
ghost use Rattle.tb_pair.specs.declared.piece.Piece.{Piece};
ghost use Rattle.tb_pair.specs.Clocks.{ClockPasses};
ghost use Rattle.tb_pair.specs.Jobs.{CanServe};
ghost use Rattle.tb_pair.specs.Parts.{pair_rights, pair_left, to_pipe};
ghost use Rattle.tb_pair.specs.Passing.{IsPartOf, Passes};
ghost use Rattle.tb_pair.specs.Ticking.{CanTick, TicksPair};
ghost use Rattle.tb_pair.specs.Workers.{IsEarly, WritesPipe, ReadsPipe};

use crate::pipe::{PipeIn, PipeOut};

/// The two ends of a pipe meet again, once both workers have ended. `begun` and `done` are the seat of the writing worker, before and
/// after its work. `last` is the seat that has seen the whole log of its bus. `others_begun`, `others_done`, and `others_last` are
/// the same for the reading worker. The two logs then agree about the pipe.
pub fn ends_meet<'a>(writes: PipeIn<'a>, reads: PipeOut<'a>)
    requires { IsPair writes.end reads.end }
    ensures passes { (bus others_bus : TableId)
        (begun done last others_begun others_done others_last : SeatView)
        (writer reader : WorkEnd)
        → WritesPipe begun done [] (sent writes.entry.end) writer
        → ReadsPipe others_begun others_done [] (received reads.entry.end) reader
        → CanServe bus begun → IsPartOf begun done last
        → CanServe others_bus others_begun → IsPartOf others_begun others_done others_last
        → Passes last.seen others_last.seen (IsEarly writer) (IsEarly reader) }
    ensures met { (known : List Piece)
        × (received reads.entry.end ++ known ≡ sent writes.entry.end) }
{
    let PipeIn {
        end: mut producer,
        ..
    } = writes;
    let PipeOut {
        end: mut consumer,
        ..
    } = reads;
    consumer.slots_beside(&mut producer);
}

/// After its work, the tick worker of a pair has delivered the ticks of one clock to two buses. So the two logs agree about that
/// clock. The seats are named as for `ends_meet`.
pub fn ticks_meet()
    ensures { (most : ℕ) (told_old told_new : Option ClockView) (faults_old faults_new : ℕ)
        (bus others_bus : TableId)
        (begun done last others_begun others_done others_last : SeatView)
        (it others : WorkEnd)
        → TicksPair most begun done others_begun others_done
        told_old told_new faults_old faults_new it others
        → CanTick bus begun → IsPartOf begun done last
        → CanTick others_bus others_begun → IsPartOf others_begun others_done others_last
        → ClockPasses most last.seen others_last.seen told_old told_new
        (Rose faults_old faults_new) (IsEarly it) (IsEarly others) }
{}

/// The first seat of a bus of a pair can be split into one seat for each worker and one for the ticker. These can join again, to all
/// rights and all room. The worker of the pipe has both rights of lane 1.
pub fn a_pair_parts()
    ensures can { CanPart all_rights pair_rights }
    ensures ticks { AreAmong ticker_rights pair_left }
    ensures unite { fold united (without pair_left ticker_rights) (ticker_rights ∷ pair_rights)
        ≡ all_rights }
    ensures rooms { fold (λ (a b : ℕ). a + b) 31 (1 ∷ map (λ _. 1) pair_rights) ≡ 64 }
    ensures count { length pair_rights ≡ 32 }
    ensures pipe { (has to_pipe (In 1) ≡ true) × (has to_pipe (Outs 1) ≡ true) }
{}
