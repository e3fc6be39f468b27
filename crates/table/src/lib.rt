// The table of a text: loading, orders, saving and the tray as definitions, and what follows from them. The code is in store.
#![tactic(auto)]
