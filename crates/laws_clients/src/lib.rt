//! One history, as clients see it: a law over what they submitted and what they heard. There is no code here: the
//! function's clause states the law, and its empty body is proved to meet it.
//!
//! ```rust
//! laws_clients::clients_see_one_history::<C, A>(); // for whoever's clause rests on it
//! ```
//!
//! Proved, for moves of replicas and clients that are right along an order (vr_model's `AreMoves`): there is one list of
//! requests, and it only grows; each request in it was submitted, and stands behind all that the list had by then; and
//! each answer that a client heard is that of the commands up to its request's place, to which the list had come
//! (`specs/ClientHistory`, which has no rule and no replica in it). So a request that was submitted behind an answer
//! stands behind the answered one.
//!
//! Only tested: nothing. It says nothing of progress: that anything is ever answered.
#![tactic(auto)]

ghost use Rattle.std.specs.Prelude.{ℕ, List, []};
ghost use Rattle.vr_model.specs.Interleaving.{Move, AreMoves};
ghost use Rattle.vr_model.specs.Steps.{first_local_state, first_client};
ghost use Rattle.laws_clients.specs.ClientHistory.{clients_of, IsHistoryOf};

/// What the clients of any moves did is one history: moves of which each is right from where its replica or client
/// stands by then, and takes what was sent before.
pub fn clients_see_one_history<C, A>()
    ensures { (f : ℕ) (answer : List C → A) (moves : List (Move C A))
        → AreMoves f answer (λ i. first_local_state) (λ c. first_client) [] moves
        → IsHistoryOf answer (clients_of moves) }
{
    laws_history::moves_are_lists::<C, A>();
    laws_history::interleave::<C, A>();
    laws_history::running_replicas_agree::<C, A>();
}
