ghost use Rattle.std.specs.Prelude.{◌≡◌, ℕ, ◌≤◌, List, ◌++◌, length, map, drop};
ghost use Rattle.def_history.specs.Made.{done_by};
ghost use Rattle.boss_model.specs.declared.answer.Answer.{Answer};
ghost use Rattle.boss_model.specs.declared.command.Command.{Command};
ghost use Rattle.def_connection.specs.Batches.{AreAsked, batch, deeds_by, texts_by};
ghost use Rattle.def_connection.specs.Speech.{Footing, Manner, Reply, of_answer, Speech, line_in, AreRead, text_in, deeds_in, moments_in};

/// Lines, the commands that they ask for, and the replies are exchanges, as far as there are replies: the lines, their readings,
/// the entries, the texts and the moments are theirs.
pub fn a_batch_is_its_exchanges()
    ensures lines { (manner : Manner) (at : Footing) (lines : List (List ℕ)) (calls : List (Command × ℕ)) (replies : List Reply) →
        AreAsked manner at lines calls → length replies ≤ length calls → lines ≡ map line_in (batch lines calls replies) ++ drop (length replies) lines }
    ensures reads { (manner : Manner) (at : Footing) (lines : List (List ℕ)) (calls : List (Command × ℕ)) (replies : List Reply) →
        AreAsked manner at lines calls → AreRead manner at (batch lines calls replies) }
    ensures deeds { (manner : Manner) (session : ℕ) (at : Footing) (lines : List (List ℕ)) (calls : List (Command × ℕ)) (replies : List Reply) →
        AreAsked manner at lines calls → deeds_in session (batch lines calls replies) ≡ deeds_by session calls replies }
    ensures text { (manner : Manner) (speech : Speech) (at : Footing) (lines : List (List ℕ)) (calls : List (Command × ℕ)) (replies : List Reply) →
        AreAsked manner at lines calls → length replies ≤ length calls → text_in speech (batch lines calls replies) ≡ texts_by speech replies }
    ensures moments { (manner : Manner) (at : Footing) (lines : List (List ℕ)) (calls : List (Command × ℕ)) (replies : List Reply) →
        AreAsked manner at lines calls →
        map (λ call. call.1) calls ≡ moments_in (batch lines calls replies) ++ map (λ call. call.1) (drop (length replies) calls) }
{}

/// What was done for the commands that were answered is an entry for each answer.
pub fn answers_of_a_desk_are_replies()
    ensures { (session : ℕ) (calls : List (Command × ℕ)) (answers : List Answer) →
        deeds_by session calls (map of_answer answers) ≡ done_by session calls answers }
{}
