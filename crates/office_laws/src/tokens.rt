// Laws of commands that carry a token, as functions that do nothing.
ghost use Rattle.std.specs.Prelude.{◌≡◌, ℕ, ◌<◌, ◌≤◌, ◌++◌, ◌∷◌, List, Some, None, Ok, Err, true};
ghost use Rattle.office_types.specs.Commands.{kind_of};
ghost use Rattle.office_types.specs.Tokens.{takes_token};
ghost use Rattle.office_types.specs.declared.command.Command.{Command};
ghost use Rattle.office_types.specs.declared.command.Entry.{Entry};
ghost use Rattle.office_types.specs.declared.refusal.Refusal.TheVariants.{TokenReused};
ghost use Rattle.office_types.specs.declared.reply.Reply.{Reply};
ghost use Rattle.plain_office.specs.Office.{Office, KeptReply};
ghost use Rattle.plain_office.specs.Once.{most_kept, kept_at, step_with};
ghost use Rattle.plain_office.specs.Run.{accept, run_from, run};
ghost use Rattle.office_laws.specs.Tokens.{other_tokens, IsReplyIn};

/// States that a command whose token is kept with the same command gets the kept reply. If the token is kept with
/// another command, it is refused. Neither changes the office.
///
/// Own rule.
pub fn a_kept_reply_is_given_again()
    ensures again { (t : ℕ) (token : List ℕ) (c : Command) (p : Office) (kept : KeptReply)
        → takes_token c ≡ true → kept_at token p.kept ≡ Some kept → kept.command ≡ c
        → step_with t (Some token) c p ≡ (p, Ok kept.reply) }
    ensures reused { (t : ℕ) (token : List ℕ) (c : Command) (p : Office) (kept : KeptReply)
        → kept_at token p.kept ≡ Some kept → (kept.command ≡ c → ⊥)
        → step_with t (Some token) c p ≡ (p, Err (TokenReused (kind_of kept.command))) }
{}

/// States that each kept reply is that to an entry of the history with its token. Between two entries with the same
/// token there are at least 10,000 entries with other tokens.
pub fn tokens_are_far_apart()
    ensures first { (entries : List Entry) (p : Office) (token : List ℕ) (kept : KeptReply)
        → run entries ≡ Some p → kept_at token p.kept ≡ Some kept → IsReplyIn entries kept }
    ensures apart { (front middle back : List Entry) (first again : Entry) (token : List ℕ) (p : Office)
        → run (front ++ first ∷ middle ++ again ∷ back) ≡ Some p
        → first.token ≡ Some token → again.token ≡ Some token
        → most_kept ≤ other_tokens token middle }
{}

/// States that a command accepted with a token acts once. Sent again with the token, it gets its first reply and
/// changes nothing, as long as fewer than 10,000 commands with other tokens were accepted since.
pub fn a_command_with_a_token_acts_once()
    ensures { (history later : List Entry) (e : Entry) (token : List ℕ) (p q r : Office) (reply : Reply) (t : ℕ)
        → run history ≡ Some p → accept p e ≡ Some q → e.token ≡ Some token → takes_token e.command ≡ true
        → (step_with e.moment e.token e.command p).1 ≡ Ok reply
        → run_from (Some q) later ≡ Some r → other_tokens token later < most_kept
        → step_with t (Some token) e.command r ≡ (r, Ok reply) }
{}
