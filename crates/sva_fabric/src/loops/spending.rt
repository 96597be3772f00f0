//! The one loop of all threads. It is a macro: a function that takes a closure may call it again and again only where it may be called in
//! every state, and each loop's turn may be taken only in the states that its own turns lead to, of which its own invariant speaks.

/// Takes turns as long as there are some, and tells how they were spent. A turn whose step was accepted goes on so; one that is to be tried
/// again lets other threads run first; any other ends the loop. Where each turn is of what is due, the loop ends once nothing is.
macro_rules! spend {
    ($turn:ident in $turns:expr $(, $line:ident of $due:expr)? => $taken:expr, $accepted:expr) => {{
        for $turn in 0..$turns {
            $(
                let Some($line) = $due else {
                    return Spent {
                        turns_left: $turns - $turn,
                        out_of_memory: false,
                    };
                };
            )?
            match $taken {
                Turn::Accepted => $accepted,
                Turn::Again => yield_now(),
                ended => return Spent::by(ended, $turns - $turn - 1),
            }
        }
        Spent {
            turns_left: 0,
            out_of_memory: false,
        }
    }};
}

pub(crate) use spend;
