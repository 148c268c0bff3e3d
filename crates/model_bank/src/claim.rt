//! By which certificate a model is judged at a sample.

ghost use Rattle.std.specs.Prelude.{◌≡◌, ◌<◌, IfSome, length};
ghost use Rattle.model_bank.specs.Offers.{claim_at};

use farkas_check::Cert;

/// By which certificate a model is judged at a sample.
#[derive(Clone, Copy, Debug)]
pub enum Claim {
    /// By the model's own choice: the one that is due, or the first candidate, or one that the search proposes, or none.
    Own,
    /// By this one, or by none, where it is justified.
    Offered(Option<Cert>),
}

/// The claim on model `i`: what is offered for it, or its own choice where nothing is offered for any.
pub fn claim_on(offered: Option<&[Option<Cert>]>, i: usize) -> Claim
    requires { IfSome offered (λ offers. i < length offers.now) }
    ensures { result ≡ claim_at offered.entry i }
{
    match offered {
        None => Claim::Own,
        Some(offers) => Claim::Offered(offers[i]),
    }
}
