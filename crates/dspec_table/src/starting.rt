ghost use Rattle.std.specs.Prelude.{◌≡◌, ◌≢◌, IfOk, IfErr, Some, None, [], length, replicate};
ghost use Rattle.dspec_deeds.specs.declared.config.StartFault.TheVariants as start;
ghost use Rattle.dspec_deeds.specs.Ranges.{start_fault};
ghost use Rattle.dspec_table.specs.{Layout.word_count, Seats.dealing, Seats.last_seat, Seats.set_up, Seats.DealtSeats, Seats.FreshSeats, Seats.IsConsumerAt, Seats.known_there};

use crate::rule::{AnySeat, Board};
use crate::seats::{ConsumerSeat, CpuSeat, Words};
use crate::word_steps::Deal;
use dspec_deeds::{Config, StartFault};
use std::alloc::{AllocError, Global};

// All words of a session, each 0, with the places between them that no word has.
fn zeros(alloc: Global, config: &Config) -> Result<Vec<u64>, AllocError>
    requires checked { start_fault config.now ≡ None }
    ensures { IfOk result (λ v. v.items ≡ replicate (word_count config.now) 0) }
{
    let cpus = config.cpus as usize;
    let width = config.nspec as usize + 8;
    prove!(cpus * width <= 4544);
    vec![in alloc; 0; config.nspec as usize * 8 + 16 + cpus * width]
}

fn deal(
    alloc: Global,
    board: &Board,
    config: &Config,
    dealer: &mut AnySeat,
) -> Result<Vec<CpuSeat>, AllocError>
    requires dealer { (dealer.old.table_id ≡ board.now.shared.table_id) × (dealer.old.me ≡ (dealing config.now 0, [])) }
    requires key { (board.now.shared.key ≡ config.now) × (board.now.shared.table_id.words ≡ word_count config.now) }
    ensures dealer { IfOk result (λ v. (dealer.new.table_id ≡ board.now.shared.table_id) × (dealer.new.me ≡ (last_seat config.now, []))) }
    ensures seats { IfOk result (λ v. (length v.items ≡ config.now.cpus) × DealtSeats board.now.shared.table_id config.now v.items) }
{
    let mut seats = Vec::with_capacity(alloc, config.cpus as usize)?;
    for cpu in 0..config.cpus {
        let seat = board.shared.split_seat::<Deal>(dealer);
        seats.push(CpuSeat { seat, cpu })?;
    }
    Ok(seats)
}

impl Words {
    // Of a configuration that was looked at.
    fn lay(
        alloc: Global,
        config: &Config,
    ) -> Result<(Words, Vec<CpuSeat>, ConsumerSeat), AllocError>
        requires checked { start_fault config.now ≡ None }
        ensures config { IfOk result (λ r. set_up r.0 ≡ config.now) }
        ensures seats { IfOk result (λ r. (length r.1.items ≡ config.now.cpus) × DealtSeats r.0.board.shared.table_id config.now r.1.items) }
        ensures consumer { IfOk result (λ r. IsConsumerAt r.0 r.2 × (known_there r.2 ≡ last_seat config.now)) }
    {
        let zeros = zeros(alloc, config)?;
        let (board, mut seat) = Board::of_words(alloc, zeros.as_slice(), config)?;
        let seats = deal(alloc, &board, config, &mut seat)?;
        let words = Words {
            board,
            config: *config,
        };
        Ok((words, seats, ConsumerSeat { seat }))
    }

    /// The words of a session, with the seats of its CPUs, in order, and the consumer's. It refuses the first field of the
    /// configuration that is out of range, and else answers Memory where there was none.
    pub fn start(
        alloc: Global,
        config: &Config,
    ) -> Result<(Words, Vec<CpuSeat>, ConsumerSeat), StartFault>
        ensures started { IfOk result (λ _. start_fault config.now ≡ None) }
        ensures refused { IfErr result (λ fault. fault ≢ start.Memory → start_fault config.now ≡ Some fault) }
        ensures memory { IfErr result (λ fault. fault ≡ start.Memory → start_fault config.now ≡ None) }
        ensures config { IfOk result (λ r. set_up r.0 ≡ config.now) }
        ensures seats { IfOk result (λ r. (length r.1.items ≡ config.now.cpus) × FreshSeats r.0 r.1.items) }
        ensures consumer { IfOk result (λ r. IsConsumerAt r.0 r.2 × (known_there r.2 ≡ last_seat config.now)) }
    {
        config.check()?;
        let Ok(laid) = Words::lay(alloc, config) else {
            return Err(StartFault::Memory);
        };
        Ok(laid)
    }
}
