// Whether a search was stopped at its ceiling.
ghost use Rattle.std.specs.Prelude.{◌≡◌, eqb};
ghost use Rattle.refusal.specs.Refusal.{fault_in};
ghost use Rattle.serving.specs.Serves.{number};

use refusal::Refusal;

pub fn is_stop<T: Copy>(told: Result<T, Refusal>) -> bool
    ensures { result ≡ eqb (number (fault_in told)) 34 }
{
    match told {
        Ok(_) => false,
        Err(refusal) => refusal.number() == Refusal::Stopped.number(),
    }
}
