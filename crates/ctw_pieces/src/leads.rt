// Whether a text is a CT module, by its first tokens.

ghost use Rattle.std.specs.Prelude.{◌≡◌, IfOk, drop};
ghost use Rattle.ctw_text.specs.Toks.{toks_of};
ghost use Rattle.ctw_text.specs.Machine.{is_ct};
ghost use Rattle.ctw_pieces.specs.Leads.{lead_of, lead_of_tok, by_leads};

use crate::atoms::tok_of;
use ctw_lex::TokenList;
use ctw_text::{Key, Tok};
use std::alloc::{AllocError, Global};

/// What a token may be at the head of a module.
#[derive(Clone, Copy)]
pub enum Lead {
    Open,
    Module,
    Ct,
    Id,
    Other,
}

fn lead_of_tok(tok: &Tok) -> Lead
    ensures { result ≡ lead_of_tok tok.now }
{
    match tok {
        Tok::Open(_) => Lead::Open,
        Tok::Word(Key::Module) => Lead::Module,
        Tok::Word(Key::Ct) => Lead::Ct,
        Tok::Id(_) => Lead::Id,
        _ => Lead::Other,
    }
}

// `Other` where there is no such token.
#[tactic(auto, using(crate::proofs::LeadKinds::there, crate::proofs::LeadKinds::past))]
fn lead_at(alloc: Global, tokens: &TokenList, at: u32) -> Result<Lead, AllocError>
    ensures { IfOk result (λ l. l ≡ lead_of (drop at (toks_of tokens.now))) }
{
    if at >= tokens.count() {
        return Ok(Lead::Other);
    }
    let token = tokens.at(at);
    let tok = tok_of(alloc, token)?;
    Ok(lead_of_tok(&tok))
}

fn by_leads(first: Lead, second: Lead, third: Lead, fourth: Lead) -> bool
    ensures { result ≡ by_leads first second third fourth }
{
    match (first, second, third, fourth) {
        (Lead::Open, Lead::Module, Lead::Ct, _) => true,
        (Lead::Open, Lead::Module, Lead::Id, Lead::Ct) => true,
        _ => false,
    }
}

/// Whether the tokens begin `(module ct` or `(module id ct`; the only error is want of memory.
#[tactic(auto, using(crate::proofs::LeadKinds::told_by))]
pub fn is_ct(alloc: Global, tokens: &TokenList) -> Result<bool, AllocError>
    ensures { IfOk result (λ b. b ≡ is_ct (toks_of tokens.now)) }
{
    let first = lead_at(alloc, tokens, 0)?;
    let second = lead_at(alloc, tokens, 1)?;
    let third = lead_at(alloc, tokens, 2)?;
    let fourth = lead_at(alloc, tokens, 3)?;
    Ok(by_leads(first, second, third, fourth))
}
