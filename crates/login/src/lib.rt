// The TCP login and its answer.
#![tactic(auto)]

ghost use Rattle.std.specs.Prelude.{◌≡◌, [], ◌∷◌, Ok};
ghost use Rattle.wire.specs.Buffers.{writing, leaving};
ghost use Rattle.login.specs.Login.{read_login, login_answer};

use wire::Refusal;

pub fn read_login(p: &[u8]) -> Result<u64, Refusal>
    ensures { result ≡ read_login p.now }
{
    if p.len() < 17 {
        return Err(Refusal::of(1));
    }
    if 17 < p.len() {
        return Err(Refusal::of(4));
    }
    // a match, so that the edit of a wrong digit's place changes a value and no form
    match wire::read_imei(p, 0) {
        Ok(imei) => Ok(imei),
        Err(x) => Err(x),
    }
}

fn answer_byte(p: &[u8], known: bool) -> u8
    ensures { result ∷ [] ≡ login_answer known p.now }
{
    if known {
        return match read_login(p) {
            Ok(_) => 1,
            Err(_) => 0,
        };
    }
    0
}

// One byte.
pub fn answer_login(p: &[u8], known: bool, out: &mut [u8]) -> Result<usize, Refusal>
    ensures result_value { result ≡ writing (Ok (login_answer known p.now)) out.old }
    ensures out_after { out.new ≡ leaving (Ok (login_answer known p.now)) out.old }
{
    let answer = answer_byte(p, known);
    if out.len() < 1 {
        return Err(Refusal::of(18));
    }
    out[0] = answer;
    Ok(1)
}
