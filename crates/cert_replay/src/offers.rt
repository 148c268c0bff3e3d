//! The certificates that a report offers for a sample.
ghost use Rattle.std.specs.Prelude.{◌≡◌, ◌≢◌, ℕ, ◌+◌, ◌*◌, ◌<◌, ◌≤◌, List, length, true};
ghost use Rattle.std.specs.Prelude.{Some, None, IfOk, IfErr, IfSome, IfNone, OnOk, option_map};
ghost use Rattle.outside_io.specs.Causes.{Rose};
ghost use Rattle.plant_model.specs.Plant.{Plant};
ghost use Rattle.farkas_check.specs.Certificate.{Certificate, certificate_of};
ghost use Rattle.report_text.specs.Line.{exclude};
ghost use Rattle.report_text.specs.Seen.{line_of};
ghost use Rattle.model_bank.specs.Seen.{offers_seen};
ghost use Rattle.input_files.specs.Stream.{ReadsOn};
ghost use Rattle.report_rules.specs.Replay.{IsOfferIn};
ghost use Rattle.cert_replay.specs.Outcome.{IfRead};
ghost use Rattle.cert_replay.specs.Faults.{IsReportFault};
ghost use Rattle.cert_replay.specs.Lines.{most_line, most_lines};
ghost use Rattle.cert_replay.specs.Window.{left_in, HasUnread, ReadsAhead};
ghost use Rattle.cert_replay.specs.Offers.{AreCountsOf, TakesModel, TakesIfLive, AddsOffers, TakesSample, offer_seen};

use crate::counts::LineCounts;
use crate::fault::CheckFault;
use crate::window::Window;
use arrayvec::ArrayVec;
use farkas_check::Cert;
use outside_io::Shelf;
use report_text::{RepLine, read_line};

/// How many lines stand behind those of the models: which are possible, and the verdict.
const CLOSING_LINES: usize = 2;

/// Takes the lines of a sample, and gives the certificates, or none, that they offer for the models, live or not.
pub fn take_sample<F: Shelf>(
    window: &mut Window,
    shelf: &mut F,
    counts: &LineCounts,
    lives: &[bool],
) -> Result<ArrayVec<Option<Cert>, 16>, CheckFault>
    requires attached { ((F.state shelf.old).slot 2).attached ≡ true }
    requires models { length lives.now ≡ length counts.now.states.items }
    requires few { length lives.now ≤ 16 }
    ensures ahead { OnOk result (ReadsAhead window.old (F.state shelf.old) window.new (F.state shelf.new)) }
    ensures as_many { IfOk result (λ os. length os.items ≡ length lives.now) }
    ensures taken { IfOk result (λ os. (ps : List Plant) → AreCountsOf counts.now ps
        → (unread : List ℕ) → HasUnread window.old (F.state shelf.old) unread
        → TakesSample ps lives.now (left_in window.new) unread (offers_seen os.items)) }
    ensures fault { IfErr result IsReportFault }
    ensures read { IfRead result (λ slot. Rose ((F.state shelf.old).slot 2).faults ((F.state shelf.new).slot 2).faults) }
    ensures kept { ReadsOn 2 (F.state shelf.old) (F.state shelf.new) }
{
    let mut offers = ArrayVec::new();
    let place = window.take_lines(shelf, Some(0), 1)?;
    take_models(window, shelf, place, counts, lives, &mut offers)?;
    Ok(offers)
}

/// Takes the lines of the models that have no offer yet, and of the closing.
fn take_models<F: Shelf>(
    window: &mut Window,
    shelf: &mut F,
    place: Option<usize>,
    counts: &LineCounts,
    lives: &[bool],
    offers: &mut ArrayVec<Option<Cert>, 16>,
) -> Result<(), CheckFault>
    requires attached { ((F.state shelf.old).slot 2).attached ≡ true }
    requires models { length lives.now ≡ length counts.now.states.items }
    requires few { length lives.now ≤ 16 }
    requires fewer { length offers.old.items ≤ length lives.now }
    requires place { IfSome place (λ from. from ≤ length (left_in window.old)) }
    requires near { IfSome place (λ from. from ≤ most_line * (1 + 15 * length offers.old.items)) }
    ensures ahead { OnOk result (ReadsAhead window.old (F.state shelf.old) window.new (F.state shelf.new)) }
    ensures taken { OnOk result (AddsOffers counts.now lives.now place window.old (F.state shelf.old) window.new
        (offers_seen offers.old.items) (offers_seen offers.new.items)) }
    ensures fault { IfErr result IsReportFault }
    ensures read { IfRead result (λ slot. Rose ((F.state shelf.old).slot 2).faults ((F.state shelf.new).slot 2).faults) }
    ensures kept { ReadsOn 2 (F.state shelf.old) (F.state shelf.new) }
{
    let i = offers.len();
    if i == lives.len() {
        window.take_lines(shelf, place, CLOSING_LINES)?;
        return Ok(());
    }
    let (offer, behind) = take_if_live(
        window,
        shelf,
        place,
        lives[i],
        i as u32,
        counts.outputs,
        counts.states[i],
    )?;
    offers.push(offer);
    take_models(window, shelf, behind, counts, lives, offers)
}

/// Takes the lines of a model if it is live, and gives its offer and where they end.
fn take_if_live<F: Shelf>(
    window: &mut Window,
    shelf: &mut F,
    place: Option<usize>,
    is_live: bool,
    model: u32,
    outputs: usize,
    states: usize,
) -> Result<(Option<Cert>, Option<usize>), CheckFault>
    requires attached { ((F.state shelf.old).slot 2).attached ≡ true }
    requires few_outputs { outputs ≤ 6 }
    requires few_states { states ≤ 8 }
    requires place { IfSome place (λ from. from ≤ length (left_in window.old)) }
    requires near { IfSome place (λ from. from + most_line * 15 ≤ most_line * most_lines) }
    ensures ahead { OnOk result (ReadsAhead window.old (F.state shelf.old) window.new (F.state shelf.new)) }
    ensures taken { IfOk result (λ r.
        TakesIfLive is_live model outputs states place window.old (F.state shelf.old) window.new (offer_seen r)) }
    ensures fault { IfErr result IsReportFault }
    ensures read { IfRead result (λ slot. Rose ((F.state shelf.old).slot 2).faults ((F.state shelf.new).slot 2).faults) }
    ensures kept { ReadsOn 2 (F.state shelf.old) (F.state shelf.new) }
{
    if is_live {
        take_model(window, shelf, place, model, outputs, states)
    } else {
        Ok((None, place))
    }
}

/// Takes the lines of a live model, and gives its offer and where they end.
fn take_model<F: Shelf>(
    window: &mut Window,
    shelf: &mut F,
    place: Option<usize>,
    model: u32,
    outputs: usize,
    states: usize,
) -> Result<(Option<Cert>, Option<usize>), CheckFault>
    requires attached { ((F.state shelf.old).slot 2).attached ≡ true }
    requires few_outputs { outputs ≤ 6 }
    requires few_states { states ≤ 8 }
    requires place { IfSome place (λ from. from ≤ length (left_in window.old)) }
    requires near { IfSome place (λ from. from + most_line * 15 ≤ most_line * most_lines) }
    ensures ahead { OnOk result (ReadsAhead window.old (F.state shelf.old) window.new (F.state shelf.new)) }
    ensures taken { IfOk result (λ r. TakesModel model outputs states place window.old (F.state shelf.old) window.new (offer_seen r)) }
    ensures fault { IfErr result IsReportFault }
    ensures read { IfRead result (λ slot. Rose ((F.state shelf.old).slot 2).faults ((F.state shelf.new).slot 2).faults) }
    ensures kept { ReadsOn 2 (F.state shelf.old) (F.state shelf.new) }
{
    let Some(from) = window.take_lines(shelf, place, outputs)? else {
        return Ok((None, None));
    };
    let Some(to) = window.take_lines(shelf, Some(from), 1)? else {
        return Ok((None, None));
    };
    if let Some(cert) = offer_in(model, window.text_between(from, to)) {
        return Ok((Some(cert), Some(to)));
    }
    let behind = window.take_lines(shelf, Some(to), states)?;
    Ok((None, behind))
}

/// The certificate that a line has for a model, if it is an exclusion of that model.
fn offer_in(model: u32, text: &[u8]) -> Option<Cert>
    ensures { IsOfferIn model text.now (option_map certificate_of result) }
{
    // most lines are none, and need not be read
    if !text.starts_with(b"x") {
        return None;
    }
    match read_line(text) {
        Ok(rep) => exclusion_of(model, &rep),
        Err(_) => None,
    }
}

/// The certificate by which a line excludes this model, if it does.
fn exclusion_of(model: u32, rep: &RepLine) -> Option<Cert>
    ensures some { IfSome result (λ cert. line_of rep.now ≡ exclude model (certificate_of cert)) }
    ensures none { IfNone result ((c : Certificate) → line_of rep.now ≢ exclude model c) }
{
    match rep {
        RepLine::Exclude { model: i, cert } if *i == model => Some(*cert),
        _ => None,
    }
}
