use std::io;
use std::sync::atomic::{AtomicU64, Ordering};

/// How many accounts a worker has: worker W has those from 4 W on, so that no other changes them.
pub const ACCOUNTS: u64 = 4;
/// The balance that each begins with.
const BALANCE: u64 = 100;

/// The names of the accounts' owners, as they gave them.
const OWNERS: [&str; 12] = [
    "Ada",
    "Zoë",
    "Bo",
    "Ann \"Nan\" Lee",
    "Søren",
    "Alexander von Humboldt",
    "Vi",
    "Joan",
    "高橋さくら子",
    "Jo\\anna",
    "Grace",
    "Émile",
];

/// The name of an account's owner; none where there is no account.
pub fn owner_of(account: u16) -> &'static str {
    match OWNERS.get(account as usize) {
        Some(owner) => *owner,
        None => "",
    }
}

/// The balances of all accounts.
#[derive(Drop)]
pub struct Board {
    balances: [AtomicU64; 12],
}

impl Board {
    /// All accounts with the balance that they begin with.
    pub fn new() -> Board {
        Board {
            balances: [0u8; 12].map(|_| AtomicU64::new(BALANCE)),
        }
    }

    /// The balance of an account; 0 where there is none.
    pub fn read(&self, account: u16) -> u64 {
        match self.balances.get(account as usize) {
            Some(balance) => balance.load(Ordering::SeqCst),
            None => 0,
        }
    }

    /// Sets the balance of an account.
    pub fn write(&self, account: u16, balance: u64) {
        if let Some(place) = self.balances.get(account as usize) {
            place.store(balance, Ordering::SeqCst);
        }
    }
}

impl Board {
    /// Prints all balances.
    pub fn tell<R: Print>(&self, rt: &R) -> io::Result<()> {
        print!(rt; "board")?;
        for balance in &self.balances {
            print!(rt; " {}", balance.load(Ordering::SeqCst))?;
        }
        println!(rt; "")?;
        Ok(())
    }
}
