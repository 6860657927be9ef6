// No code: lists, numbers as bytes and lent rooms, as the definitions speak of them, with their laws. Nothing here knows of HTML.
#![tactic(auto)]
