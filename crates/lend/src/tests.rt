//! Loans over two threads, and one that is dropped.

ghost use Rattle.std.specs.Prelude.{◌≡◌};
ghost use Rattle.lend.specs.Loans.{value_of, age_of, parts_of, HasLender};

use crate::loan::Loan;
use std::test::Fail;
use std::thread;

#[test]
fn two_threads_read_one_value(rt: HostRuntime) -> Result<(), Fail> {
    let mut mine = Loan::new(rt.alloc(), 41u64)?;
    let theirs = mine.cut();
    let ((mut mine, left), (theirs, right)) = thread::join(
        &rt,
        move || -> (Loan<u64>, u64)
            requires { (parts_of mine ≡ 2147483648) × (value_of mine ≡ 41) × HasLender mine }
            ensures { (parts_of result.0 ≡ parts_of mine) × (age_of result.0 ≡ age_of mine) × (result.1 ≡ 41) × HasLender result.0 }
        {
            let read = *mine.value();
            (mine, read)
        },
        move || -> (Loan<u64>, u64)
            requires { (parts_of theirs ≡ 2147483648) × (value_of theirs ≡ 41) }
            ensures { (parts_of result.0 ≡ parts_of theirs) × (age_of result.0 ≡ age_of theirs) × (result.1 ≡ 41) }
        {
            let read = *theirs.value();
            (theirs, read)
        },
    );
    mine.join(theirs);
    mine.close();
    assert_eq!(rt; left + right, 82);
    Ok(())
}

#[test]
fn a_loan_that_is_dropped_leaks(rt: HostRuntime) -> Result<(), Fail> {
    let mut mine = Loan::new(rt.alloc(), 7u64)?;
    let theirs = mine.cut();
    drop(mine);
    assert_eq!(rt; *theirs.value(), 7);
    Ok(())
}
